// The kind of a preference.
ghost use Rattle.std.specs.Prelude.{◌≡◌, ◌<◌, ◌≤◌, T, length, get_or};
ghost use Rattle.task.specs.File.{soft_mark, kind_of};
ghost use Rattle.task.specs.Spelling.{kind_spellable};
ghost use Rattle.task.specs.Rows.{steps_at};
ghost use Rattle.task.specs.Answers.{as_kind};
ghost use Rattle.task.specs.Limits.{MAX_DEADLINE};

use super::marks;
use super::rows::Rows;

// The last two have so many steps' time; no other kind has steps to read.
#[derive(Clone, Copy)]
pub enum Kind {
    Always,
    Sometime,
    AtEnd,
    AtMostOnce,
    SometimeBefore,
    SometimeAfter,
    Within(u8),
    AlwaysWithin(u8),
}

// The kind that the mark of a soft preference opens; the last two have the steps.
pub fn kind_of(mark: u8, steps: u8) -> Kind
    requires { steps ≤ MAX_DEADLINE }
    ensures result_value { as_kind result ≡ kind_of mark steps }
    ensures t { T (kind_spellable (as_kind result)) }
{
    match mark {
        marks::ALWAYS => Kind::Always,
        marks::SOMETIME => Kind::Sometime,
        marks::AT_END => Kind::AtEnd,
        marks::AT_MOST_ONCE => Kind::AtMostOnce,
        marks::SOMETIME_BEFORE => Kind::SometimeBefore,
        marks::SOMETIME_AFTER => Kind::SometimeAfter,
        marks::WITHIN => Kind::Within(steps),
        _ => Kind::AlwaysWithin(steps),
    }
}

// The kind of the preference that row i opens, hard or soft.
pub fn kind_at(rows: &Rows, i: usize) -> Kind
    requires { i < length rows.now.marks.now }
    ensures result_value { as_kind result ≡ kind_of (soft_mark (get_or rows.now.marks.now i 0)) (steps_at rows.now.marks.now rows.now.values.now i) }
    ensures t { T (kind_spellable (as_kind result)) }
{
    let mark = super::soft_mark(rows.marks[i]);
    kind_of(mark, rows.steps(i))
}
