// The parts of an effect among the rows, and the number of its choices.
ghost use Rattle.std.specs.Prelude.{◌≡◌, List, ℕ, ◌≤◌, ◌<◌, ◌+◌, length};
ghost use Rattle.task.specs.TaskRows.{row};
ghost use Rattle.task.specs.Limits.{MAX_ROWS};
ghost use Rattle.task.specs.Rows.{between, MarksTo};
ghost use Rattle.task.specs.Marks.{CLAUSE, LACKS};
ghost use Rattle.single_effects.specs.Shapes.{Few, tallied, counted, counted_at, shape_at, InOrder};

use layout::sides;
use layout::sides::Span;
use task::{limits, marks};

// One choice more than an effect may have: a count that has come this far stays.
pub const OVERWIDE: usize = limits::MAX_CHOICES + 1;

// The rows of a condition so far: the choices of the clauses before the last one, the literals of the last one, and how many clauses there are.
#[derive(Clone, Copy)]
pub struct Tally {
    pub choices: usize,
    pub literals: usize,
    pub clauses: usize,
}

// A condition's choices and clauses, and the row after it.
#[derive(Clone, Copy)]
pub struct Counted {
    pub choices: usize,
    pub clauses: usize,
    pub next: usize,
}

// An effect's choices and clauses, and its ADD and DELETE rows.
#[derive(Clone, Copy)]
pub struct Shape {
    pub choices: usize,
    pub clauses: usize,
    pub changes: Span,
}

fn in_condition(mark: u8) -> bool
    ensures { result ≡ between CLAUSE LACKS mark }
{
    (marks::CLAUSE <= mark) & (mark <= marks::LACKS)
}

// Takes in a row of the condition.
fn take_in(t: Tally, mark: u8) -> Tally
    requires { Few t MAX_ROWS }
    ensures { (v : ℕ) → result ≡ tallied t (row mark v) }
{
    let choices = t.choices;
    let literals = t.literals;
    let clauses = t.clauses;
    if mark == marks::CLAUSE {
        return Tally {
            choices: usize::min(choices * literals, OVERWIDE),
            literals: 0,
            clauses: clauses + 1,
        };
    }
    Tally {
        choices,
        literals: literals + 1,
        clauses,
    }
}

// The condition has ended before row i.
fn finish(t: Tally, i: usize) -> Counted
    requires { Few t MAX_ROWS }
    ensures { result ≡ counted t i }
{
    let clauses = t.clauses;
    Counted {
        choices: usize::min(t.choices * t.literals, OVERWIDE),
        clauses,
        next: i,
    }
}

// Counts the choices of the condition that begins at row `from`.
fn count_choices(marks: &[u8], from: usize) -> Counted
    requires { MarksTo from marks.now }
    ensures from_le_next { (from ≤ result.next) × (result.next ≤ length marks.now) }
    ensures by_index { (vs : List ℕ) → result ≡ counted_at marks.now vs from }
{
    let mut t = Tally {
        choices: 1,
        literals: 1,
        clauses: 0,
    };
    for i in from..marks.len() {
        let mark = marks[i];
        if !in_condition(mark) {
            return finish(t, i);
        }
        t = take_in(t, mark);
    }
    finish(t, marks.len())
}

// The shape of the effect that row `at` opens.
pub fn shape_of(marks: &[u8], at: usize) -> Shape
    requires { MarksTo (at + 1) marks.now }
    ensures in_order { InOrder marks.now at result }
    ensures by_index { (vs : List ℕ) → result ≡ shape_at marks.now vs at }
{
    let c = count_choices(marks, at + 1);
    let to = sides::skip_marks(marks, c.next, marks::ADD, marks::DELETE);
    let choices = c.choices;
    let clauses = c.clauses;
    let from = c.next;
    Shape {
        choices,
        clauses,
        changes: Span { from, to },
    }
}
