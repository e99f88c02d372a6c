// An effect, written once for each choice.
ghost use Rattle.std.specs.Prelude.{◌≡◌, ◌+◌, ◌-◌, ◌*◌, ◌≤◌, ◌<◌, length};
ghost use Rattle.lists.specs.Lists.{concat_map};
ghost use Rattle.meaning.specs.Task.{Condition, Effect};
ghost use Rattle.task.specs.TaskRows.{effect_rows};
ghost use Rattle.task.specs.Limits.{MAX_ROWS};
ghost use Rattle.task.specs.Rows.{MarksTo};
ghost use Rattle.task.specs.Marks.{HOLDS, LACKS};
ghost use Rattle.layout.specs.Sides.{end_at};
ghost use Rattle.writer.specs.Writer.{Room, Wrote};
ghost use Rattle.singling.specs.Singled.{singled_effect};
ghost use Rattle.single_effects.specs.Effects.{Known, Dividing, digit_of, Choosable, picked_rows, EffectAt, picked_effect};

use super::shapes::Shape;
use layout::sides;
use layout::sides::Span;
use task::marks;
use task::rows::Rows;
use writer::Cursor;

// A choice by its number, of so many.
#[derive(Clone, Copy)]
pub struct Pick {
    pub choices: u32,
    pub number: u32,
}

// The literal of a clause that a choice takes, and the choice of the clauses after it.
#[derive(Clone, Copy)]
pub struct Digit {
    pub literal: usize,
    pub later: Pick,
}

// Takes the number's next digit, for a clause of so many literals; one literal asks for no division.
fn take_digit(p: Pick, literals: usize) -> Digit
    requires { Dividing p literals }
    ensures { result ≡ digit_of p literals }
{
    if literals == 1 {
        return Digit {
            literal: 0,
            later: p,
        };
    }
    let choices = p.choices / (literals as u32);
    Digit {
        literal: (p.number / choices) as usize,
        later: Pick {
            choices,
            number: p.number % choices,
        },
    }
}

// The longest clause of a condition, so that its end is not sought for each choice; the row after the last where there are no choices.
fn find_longest(marks: &[u8], s: Span, choices: usize) -> Span
    requires { MarksTo s.to marks.now }
    ensures { Known marks.now result }
{
    let to = s.to;
    let mut i = s.from;
    let mut from = marks.len();
    let mut end = from;
    if choices == 1 {
        return Span { from, to: end };
    }
    while i < to {
        let next = sides::skip_marks(marks, i + 1, marks::HOLDS, marks::LACKS);
        if end - from < next - i {
            from = i;
            end = next;
        }
        i = next;
    }
    Span { from, to: end }
}

// The row after the clause that row i opens, one clause being known.
fn clause_end(marks: &[u8], i: usize, known: Span) -> usize
    requires { (i < length marks.now) × Known marks.now known }
    ensures { result ≡ end_at HOLDS LACKS marks.now (i + 1) }
{
    if i == known.from {
        return known.to;
    }
    sides::skip_marks(marks, i + 1, marks::HOLDS, marks::LACKS)
}

// Writes a choice of the condition: from each clause the literal that the number's next digit says.
fn put_literals(out: &mut [u8], c: Cursor, rows: &Rows, s: Span, first: Pick, known: Span) -> Cursor
    requires room { Room c out.old × Known rows.now.marks.now known }
    requires choosable { (k : Condition) × Choosable rows.now.marks.now rows.now.values.now s first k }
    ensures { (k : Condition) → Choosable rows.now.marks.now rows.now.values.now s first k
        → Wrote out.old c (picked_rows k first.number) result out.new }
{
    let to = s.to;
    let mut i = s.from;
    let mut k = c;
    let mut p = first;
    while i < to {
        let end = clause_end(rows.marks, i, known);
        let d = take_digit(p, end - i - 1);
        let at = i + 1 + d.literal;
        k = writer::put_single(&mut *out, k, rows.marks[at], rows.value(at));
        p = d.later;
        i = end;
    }
    k
}

// Writes the effect of choice j.
fn put_choice(
    out: &mut [u8],
    c: Cursor,
    rows: &Rows,
    at: usize,
    s: Shape,
    j: usize,
    known: Span,
) -> Cursor
    requires room { Room c out.old × (j < s.choices) × Known rows.now.marks.now known }
    requires effect_at { (e : Effect) × EffectAt rows.now.marks.now rows.now.values.now at s e }
    ensures { (e : Effect) → EffectAt rows.now.marks.now rows.now.values.now at s e
        → Wrote out.old c (picked_effect e j) result out.new }
{
    let choices = s.choices;
    let changes = s.changes;
    let condition = Span {
        from: at + 1,
        to: changes.from,
    };
    let k = writer::put_row(&mut *out, c, marks::EFFECT, 0);
    let p = Pick {
        choices: choices as u32,
        number: j as u32,
    };
    let k = put_literals(&mut *out, k, rows, condition, p, known);
    writer::copy_rows(&mut *out, k, rows, changes)
}

// How many rows one choice has.
fn rows_of_one(s: Shape) -> usize
    requires { (s.clauses ≤ MAX_ROWS) × (s.changes.from ≤ s.changes.to) × (s.changes.to ≤ MAX_ROWS) }
    ensures { result ≡ 1 + 2 * s.clauses + (s.changes.to - s.changes.from) }
{
    1 + 2 * s.clauses + (s.changes.to - s.changes.from)
}

// Writes the effect once for each choice; where the file has no room, the rows are counted at once.
pub fn put_effect(out: &mut [u8], c: Cursor, rows: &Rows, at: usize, s: Shape) -> Cursor
    requires { Room c out.old × ((e : Effect) × EffectAt rows.now.marks.now rows.now.values.now at s e) }
    ensures { (e : Effect) → EffectAt rows.now.marks.now rows.now.values.now at s e
        → Wrote out.old c (concat_map effect_rows (singled_effect e)) result out.new }
{
    let choices = s.choices;
    if c.rows <= c.next {
        return writer::advance_by(c, choices * rows_of_one(s));
    }
    let condition = Span {
        from: at + 1,
        to: s.changes.from,
    };
    let known = find_longest(rows.marks, condition, choices);
    let mut k = c;
    for j in 0..choices {
        k = put_choice(&mut *out, k, rows, at, s, j, known);
    }
    k
}
