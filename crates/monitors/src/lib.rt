// The monitors of a task's preferences: what the facts S, B and D1, D2, … of each know of the states seen so far, and which
// preferences they say are met. Preference k has monitor k, which is kept as a byte.
#![tactic(auto)]

pub mod met;

ghost use Rattle.std.specs.Prelude.{◌≡◌, ◌*◌, ◌≤◌, ◌<◌, length};
ghost use Rattle.task.specs.Limits.{MAX_PREFERENCES};
ghost use Rattle.state.specs.Member.{member};
ghost use Rattle.monitors.specs.Monitors.{head_rows, is_two_sided, sides_at, MOST_LOOKED, SomePreferences, ForPreferences, Watched};

use reading::conditions;
use state::State;
use task::rows::Rows;
use task::{kinds, marks};

// φ and ψ of a preference in a state, how many literals were looked at, and the row after the preference.
#[derive(Clone, Copy)]
struct Sides {
    pub phi: bool,
    pub psi: bool,
    pub looked: usize,
    pub next: usize,
}

// How many rows stand before φ: the one that opens the preference, and STEPS where the kind has it.
fn head_rows(mark: u8) -> usize
    ensures { result ≡ head_rows mark }
{
    match mark {
        marks::WITHIN..=marks::ALWAYS_WITHIN => 2,
        _ => 1,
    }
}

// Whether the kind has ψ.
fn is_two_sided(mark: u8) -> bool
    ensures { result ≡ is_two_sided mark }
{
    match mark {
        marks::SOMETIME_BEFORE..=marks::SOMETIME_AFTER | marks::ALWAYS_WITHIN => true,
        _ => false,
    }
}

// The sides of the preference that row i opens, in state s. Both are read, whatever the first one gives.
fn read_sides(rows: &Rows, i: usize, s: State) -> Sides
    requires { i < length rows.now.marks.now }
    ensures i_lt_next { (i < result.next) × (result.looked ≤ MOST_LOOKED) }
    ensures value { result ≡ sides_at (member s) rows.now.marks.now rows.now.values.now i }
{
    let mark = task::soft_mark(rows.marks[i]);
    let first = conditions::condition(rows, i + head_rows(mark), s);
    if !is_two_sided(mark) {
        return Sides {
            phi: first.holds,
            psi: true,
            looked: first.looked,
            next: first.next,
        };
    }
    let second = conditions::condition(rows, first.next + 1, s);
    let looked = first.looked + second.looked;
    Sides {
        phi: first.holds,
        psi: second.holds,
        looked,
        next: second.next,
    }
}

// The monitors of the preferences that stand from row `at` on see state s, and so many literals are looked at.
pub fn watch(rows: &Rows, at: usize, s: State, last: bool, ms: &mut [u8]) -> usize
    requires rows { length ms.old ≡ MAX_PREFERENCES }
    requires some_preferences { SomePreferences rows.now.marks.now rows.now.values.now at }
    ensures upper_bound { result ≤ MAX_PREFERENCES * MOST_LOOKED }
    ensures for_preferences { ForPreferences rows.now.marks.now rows.now.values.now at (Watched last (member s) ms.old ms.new result) }
{
    let mut looked = 0;
    let mut k = 0;
    let mut i = at;
    while i < rows.marks.len() {
        if ms.len() <= k {
            return looked;
        }
        let q = read_sides(rows, i, s);
        let kind = kinds::kind_at(rows, i);
        let m = monitor::stepped(kind, last, monitor::unpacked(ms[k]), q.phi, q.psi);
        ms[k] = monitor::packed(m);
        looked += q.looked;
        k += 1;
        i = q.next;
    }
    looked
}
