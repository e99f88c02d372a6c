// The rules of a task with their monitors: which are met, and which are lost.
ghost use Rattle.std.specs.Prelude.{◌≡◌, ◌<◌, length};
ghost use Rattle.meaning.specs.Task.{Task, Preference};
ghost use Rattle.task.specs.Answers.{as_kind};
ghost use Rattle.task.specs.Limits.{MAX_PREFERENCES};
ghost use Rattle.monitor.specs.Packed.{monitor_at};
ghost use Rattle.losses.specs.Losses.{shows};
ghost use Rattle.losses.specs.Following.{Position, lost_here};
ghost use Rattle.lost_run.specs.Run.{RuleAt, SeenBy, lost_of, SomeRules, Rules, Kept};

use monitor::Monitor;
use task::kinds;
use task::kinds::Kind;
use task::rows::Rows;

// A rule with its monitor: whether it is met, and whether it is shown broken.
#[derive(Clone, Copy)]
pub struct Rule {
    pub hard: bool,
    pub weight: u32,
    pub met: bool,
    pub broken: bool,
}

// Whether a monitor shows its rule broken.
fn is_broken(kind: Kind, m: Monitor) -> bool
    ensures { result ≡ shows (as_kind kind) m.s m.b }
{
    match kind {
        Kind::Always => m.b,
        Kind::Sometime => false,
        Kind::AtEnd => false,
        Kind::AtMostOnce => m.b & !m.s,
        Kind::SometimeBefore => m.b,
        Kind::SometimeAfter => false,
        Kind::Within(_) => false,
        Kind::AlwaysWithin(_) => false,
    }
}

// Rule k, which row `from` opens.
pub fn rule_at(rows: &Rows, from: usize, k: usize, ms: &[u8]) -> Rule
    requires { (from < length rows.now.marks.now) × (k < MAX_PREFERENCES) }
    ensures { (q : Preference) → RuleAt rows.now.marks.now rows.now.values.now from q → SeenBy q (monitor_at ms.now k) result }
{
    let kind = kinds::kind_at(rows, from);
    let m = monitor::monitor_at(ms, k as u32);
    Rule {
        hard: task::opens_hard(rows.marks[from]),
        weight: rows.value(from),
        met: monitor::is_accepting(kind, m),
        broken: is_broken(kind, m),
    }
}

// The weight of a rule that is lost, and 0 of any other.
fn lost_of(r: Rule, due: bool) -> u64
    ensures { (result ≡ lost_of r due) × (result < 4294967296) }
{
    if !r.hard & r.broken & due {
        r.weight as u64
    } else {
        0
    }
}

// The weights of the rules that are lost, so many being closed.
pub fn lost(rows: &Rows, rules: &[usize], closed: usize, ms: &[u8]) -> u64
    requires { SomeRules rows.now.marks.now rows.now.values.now rules.now }
    ensures { (t : Task) (p : Position) → Rules rows.now.marks.now rows.now.values.now rules.now t
        → Kept t ms.now closed p → result ≡ lost_here t p }
{
    let mut sum = 0;
    for k in 0..rules.len() {
        let r = rule_at(rows, rules[k], k, ms);
        sum += lost_of(r, closed <= k);
    }
    sum
}
