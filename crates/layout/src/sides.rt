// Where the sides of a preference stand, and where preferences begin.
ghost use Rattle.std.specs.Prelude.{◌≡◌, ◌≤◌, ◌<◌, length, take};
ghost use Rattle.task.specs.Limits.{MAX_PREFERENCES};
ghost use Rattle.layout.specs.Sides.{end_at, sides_at, InOrder, after_preference, starts_from};

use task::marks;

// The rows from row `from` up to row `to`.
#[derive(Clone, Copy)]
pub struct Span {
    pub from: usize,
    pub to: usize,
}

// The rows of φ, and those of ψ, which are none where the kind has no ψ.
#[derive(Clone, Copy)]
pub struct Sides {
    pub first: Span,
    pub second: Span,
}

// The first row from `from` on whose mark is not between the two.
pub fn skip_marks(marks: &[u8], from: usize, least: u8, most: u8) -> usize
    requires { from ≤ length marks.now }
    ensures lower_bound { (from ≤ result) × (result ≤ length marks.now) }
    ensures value { result ≡ end_at least most marks.now from }
{
    for i in from..marks.len() {
        let mark = marks[i];
        if mark < least {
            return i;
        }
        if most < mark {
            return i;
        }
    }
    marks.len()
}

// The sides of the preference that row `at` opens.
pub fn locate(marks: &[u8], at: usize) -> Sides
    requires { at < length marks.now }
    ensures in_order { InOrder marks.now at result }
    ensures value { result ≡ sides_at marks.now at }
{
    let first = skip_marks(marks, at + 1, marks::STEPS, marks::STEPS);
    let mid = skip_marks(marks, first, marks::CLAUSE, marks::LACKS);
    let second = skip_marks(marks, mid, marks::SECOND, marks::SECOND);
    let next = skip_marks(marks, second, marks::CLAUSE, marks::LACKS);
    Sides {
        first: Span {
            from: first,
            to: mid,
        },
        second: Span {
            from: second,
            to: next,
        },
    }
}

// The row after the preference that row `at` opens.
fn after_preference(marks: &[u8], at: usize) -> usize
    ensures { result ≡ after_preference marks.now at }
{
    if marks.len() <= at {
        return at;
    }
    let p = locate(marks, at);
    p.second.to
}

// Notes at which rows so many preferences begin; the first one begins at row `at`.
pub fn note_starts(marks: &[u8], at: usize, many: usize, starts: &mut [usize])
    requires { (many ≤ length starts.old) × (many ≤ MAX_PREFERENCES) }
    ensures { take many starts.new ≡ starts_from marks.now at many }
{
    let mut j = at;
    for c in 0..many {
        starts[c] = j;
        j = after_preference(marks, j);
    }
}
