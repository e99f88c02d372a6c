// Where the parts of a task stand among its rows.
ghost use Rattle.translated_rows.specs.Parts.{Found};

use layout::sides;
use task::marks;

// GOAL stands at row `goal`, and the actions from row `from` up to row `to`, where the preferences begin.
#[derive(Clone, Copy)]
pub struct Places {
    pub goal: usize,
    pub from: usize,
    pub to: usize,
}

pub fn find(marks: &[u8]) -> Places
    ensures { Found marks.now result }
{
    let goal = sides::skip_marks(marks, 0, marks::START, marks::START);
    let mid = sides::skip_marks(marks, goal, marks::GOAL, marks::GOAL);
    let from = sides::skip_marks(marks, mid, marks::CLAUSE, marks::LACKS);
    let to = sides::skip_marks(marks, from, marks::ACTION, marks::DELETE);
    Places { goal, from, to }
}
