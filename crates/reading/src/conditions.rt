// Conditions, read from their rows.
ghost use Rattle.std.specs.Prelude.{◌≡◌, ◌+◌, ◌≤◌, length};
ghost use Rattle.state.specs.Member.{member};
ghost use Rattle.task.specs.Marks.{HOLDS, LACKS};
ghost use Rattle.task.specs.Rows.{between};
ghost use Rattle.reading.specs.Conditions.{false_mark, PastFalse, begin, evaluate_at};

use layout::sides;
use state::State;
use task::marks;
use task::rows::Rows;

// A condition's value, how many literals were looked at, and the row after it.
#[derive(Clone, Copy)]
pub struct Evaluated {
    pub holds: bool,
    pub looked: usize,
    pub next: usize,
}

// The mark of a false literal about a fact.
fn false_mark(low: u64, high: u64, fact: u32) -> u8
    ensures { result ≡ false_mark (member (record { low = low; high = high })) fact }
{
    if state::has(low, high, fact) {
        marks::LACKS
    } else {
        marks::HOLDS
    }
}

// The first row from `at` on that is no false literal.
fn past_false(rows: &Rows, at: usize, low: u64, high: u64) -> usize
    requires { at ≤ length rows.now.marks.now }
    ensures lower_bound { (at ≤ result) × (result ≤ length rows.now.marks.now) }
    ensures past_false { PastFalse (member (record { low = low; high = high })) rows.now.marks.now rows.now.values.now at result }
{
    for (n, mark) in rows.marks[at..].iter().enumerate() {
        if *mark != false_mark(low, high, rows.value(at + n)) {
            return at + n;
        }
    }
    rows.marks.len()
}

fn is_literal(mark: u8) -> bool
    ensures { result ≡ between HOLDS LACKS mark }
{
    (marks::HOLDS <= mark) & (mark <= marks::LACKS)
}

fn outcome(holds: bool, looked: usize, next: usize) -> Evaluated
    ensures { (result ≡ record { holds = holds; looked = looked; next = next }) × (result.looked ≡ looked) × (result.next ≡ next) }
{
    Evaluated {
        holds,
        looked,
        next,
    }
}

// The condition that stands from row `at` on, read in s: a clause up to its first true literal, and nothing after the first
// false clause.
pub fn condition(rows: &Rows, at: usize, s: State) -> Evaluated
    ensures value { result ≡ evaluate_at (member s) begin rows.now.marks.now rows.now.values.now at }
    ensures looked_bound { (at + result.looked ≤ result.next) × (result.looked ≤ length rows.now.marks.now) }
{
    let low = s.low;
    let high = s.high;
    let mut looked = 0;
    let mut i = at;
    while i < rows.marks.len() {
        let mark = rows.marks[i];
        if mark == marks::CLAUSE {
            let k = past_false(rows, i + 1, low, high);
            let n = looked + (k - (i + 1));
            if rows.marks.len() <= k {
                return outcome(false, n, k);
            }
            if !is_literal(rows.marks[k]) {
                return outcome(
                    false,
                    n,
                    sides::skip_marks(rows.marks, k, marks::CLAUSE, marks::LACKS),
                );
            }
            looked = n + 1;
            i = k + 1;
        } else {
            if !is_literal(mark) {
                return outcome(true, looked, i);
            }
            i += 1;
        }
    }
    outcome(true, looked, i)
}
