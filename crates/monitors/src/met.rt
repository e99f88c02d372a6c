// Which preferences are met, by monitors that have seen all states.
ghost use Rattle.std.specs.Prelude.{◌≡◌, List, ℕ, ◌+◌, ◌≤◌, ◌<◌};
ghost use Rattle.task.specs.TaskRows.{row};
ghost use Rattle.task.specs.Rows.{MarksTo};
ghost use Rattle.layout.specs.Counting.{MANY, counting, count_at};
ghost use Rattle.monitors.specs.Met.{Countable, kept_with, none_met, found, as_found};

use state::State;

// So many preferences, how many of them stand before the first hard one that is missed, and those that are met.
#[derive(Clone, Copy)]
pub struct Found {
    pub number: u32,
    pub kept: u32,
    pub met: State,
}

// How many are kept, with one preference more.
fn kept_with(number: u32, kept: u32, hard: bool, accepting: bool) -> u32
    requires { kept < MANY }
    ensures { (result ≡ kept_with number kept hard accepting) × (result ≤ kept + 1) }
{
    if (kept == number) & (!hard | accepting) {
        kept + 1
    } else {
        kept
    }
}

// One preference more.
fn find_one(f: Found, mark: u8, ms: &[u8]) -> Found
    requires { Countable f }
    ensures by_index { (v : ℕ) → as_found result ≡ found ms.now (as_found f) (row mark v) }
    ensures number_bound { (result.number ≤ f.number + 1) × (result.kept ≤ f.kept + 1) }
{
    let k = f.number;
    let met = f.met;
    let kind = task::kinds::kind_of(task::soft_mark(mark), 0); // the steps don't matter any more
    let accepting = monitor::is_accepting(kind, monitor::monitor_at(ms, k));
    let kept = kept_with(k, f.kept, task::opens_hard(mark), accepting);
    if accepting {
        Found {
            number: k + 1,
            kept,
            met: state::with(met, k),
        }
    } else {
        Found {
            number: k + 1,
            kept,
            met,
        }
    }
}

// One row more: each that opens a preference counts.
fn find_row(f: Found, mark: u8, ms: &[u8]) -> Found
    requires { Countable f }
    ensures by_index { (v : ℕ) → as_found result ≡ counting (found ms.now) (as_found f) (row mark v) }
    ensures number_bound { (result.number ≤ f.number + 1) × (result.kept ≤ f.kept + 1) }
{
    if task::is_preference(mark) {
        find_one(f, mark, ms)
    } else {
        f
    }
}

// The met preferences of those that stand from row `at` on. The rows' values don't matter.
pub fn find(marks: &[u8], at: usize, ms: &[u8]) -> Found
    requires { MarksTo at marks.now }
    ensures { (vs : List ℕ) → as_found result ≡ count_at (found ms.now) none_met marks.now vs at }
{
    let mut f = Found {
        number: 0,
        kept: 0,
        met: state::none(),
    };
    for i in at..marks.len() {
        f = find_row(f, marks[i], ms);
    }
    f
}
