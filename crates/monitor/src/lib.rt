// One monitor, which is kept as a byte, and what one more state does to it.
#![tactic(auto)]

ghost use Rattle.std.specs.Prelude.{◌≡◌, Bool, cond, ◌<◌, T, leb, eqb};
ghost use Rattle.meaning.specs.Task.{always_within};
ghost use Rattle.meaning.specs.Monitor.{older, next_age, step, accepting};
ghost use Rattle.task.specs.Spelling.{kind_spellable};
ghost use Rattle.task.specs.Answers.{as_kind};
ghost use Rattle.monitor.specs.Packed.{AGES, Aging, as_monitor, monitor_of, monitor_at};

use task::kinds::Kind;

// D of j holds where j is at most the age.
#[derive(Clone, Copy)]
pub struct Monitor {
    pub s: bool,
    pub b: bool,
    pub age: u8,
}

// The monitor that a byte stands for.
pub fn unpacked(x: u8) -> Monitor
    ensures { (as_monitor result ≡ monitor_of x) × (result.age < AGES) }
{
    Monitor {
        s: x % 2 == 1,
        b: x / 2 % 2 == 1,
        age: x / 4,
    }
}

// The byte of a monitor: one for S, two for B, and four for each state of the age.
pub fn packed(m: Monitor) -> u8
    requires { m.age < AGES }
    ensures { monitor_of result ≡ as_monitor m }
{
    4 * m.age + 2 * (m.b as u8) + (m.s as u8)
}

// One state more, up to one more than the steps.
fn older(steps: u8, age: u8) -> u8
    requires { Aging steps age }
    ensures { (result ≡ older steps age) × (result < AGES) }
{
    if age <= steps { age + 1 } else { age }
}

// How long a state with φ has waited for ψ, after one more state.
fn waited(steps: u8, m: Monitor, phi: bool, psi: bool) -> u8
    requires { Aging steps m.age }
    ensures { (result ≡ next_age (always_within steps) m.s m.age phi psi) × (result < AGES) }
{
    if psi {
        return if m.s { m.age } else { 0 };
    }
    if phi | (1 <= m.age) {
        older(steps, m.age)
    } else {
        0
    }
}

// Whether time is up: φ has just come where there are no steps, or has waited for them all.
fn is_due(steps: u8, age: u8, phi: bool) -> bool
    ensures { result ≡ cond (eqb steps 0) phi (leb steps age) }
{
    if steps == 0 { phi } else { steps <= age }
}

// The monitor of always-within after one more state.
fn waiting(steps: u8, m: Monitor, phi: bool, psi: bool) -> Monitor
    requires { Aging steps m.age }
    ensures { ((last : Bool) → as_monitor result ≡ step (always_within steps) last (as_monitor m) (record { φ = phi; ψ = psi })) × (result.age < AGES) }
{
    let s = m.s;
    let b = m.b;
    let due = is_due(steps, m.age, phi);
    let age = waited(steps, m, phi, psi);
    Monitor {
        s: due & !psi | s,
        b: phi & !psi | b & !(!s & psi),
        age,
    }
}

// A monitor after one more state; last says that it is the last.
pub fn stepped(kind: Kind, last: bool, m: Monitor, phi: bool, psi: bool) -> Monitor
    requires { T (kind_spellable (as_kind kind)) × (m.age < AGES) }
    ensures { (as_monitor result ≡ step (as_kind kind) last (as_monitor m) (record { φ = phi; ψ = psi })) × (result.age < AGES) }
{
    let s = m.s;
    let b = m.b;
    let age = m.age;
    match kind {
        Kind::Always => Monitor {
            s,
            b: !phi | b,
            age,
        },
        Kind::Sometime => Monitor { s: phi | s, b, age },
        Kind::AtEnd => Monitor {
            s: last & phi | s,
            b,
            age,
        },
        Kind::AtMostOnce => Monitor {
            s: !s & (!b & phi) | s & !(s & (b & phi)),
            b: s & !phi | b,
            age,
        },
        Kind::SometimeBefore => Monitor {
            s: psi | s,
            b: !s & phi | b,
            age,
        },
        Kind::SometimeAfter => Monitor {
            s,
            b: phi & !psi | b & !psi,
            age,
        },
        Kind::Within(steps) => Monitor {
            s: (age <= steps) & phi | s,
            b,
            age: older(steps, age),
        },
        Kind::AlwaysWithin(steps) => waiting(steps, m, phi, psi),
    }
}

// Whether a monitor that has seen all states says that its preference is met.
pub fn is_accepting(kind: Kind, m: Monitor) -> bool
    ensures { result ≡ accepting (as_kind kind) (as_monitor m) }
{
    match kind {
        Kind::Always => !m.b,
        Kind::Sometime => m.s,
        Kind::AtEnd => m.s,
        Kind::AtMostOnce => m.s | !m.b,
        Kind::SometimeBefore => !m.b,
        Kind::SometimeAfter => !m.b,
        Kind::Within(_) => m.s,
        Kind::AlwaysWithin(_) => !m.b,
    }
}

// Monitor k of those that are lent; any other has seen no state.
pub fn monitor_at(ms: &[u8], k: u32) -> Monitor
    ensures { as_monitor result ≡ monitor_at ms.now k }
{
    let i = k as usize;
    if ms.len() <= i {
        return unpacked(0);
    }
    unpacked(ms[i])
}
