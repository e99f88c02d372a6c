// One effect, and one effect for each false clause of a condition.
#![tactic(auto)]

ghost use Rattle.std.specs.Prelude.{◌≡◌, ◌∷◌, ◌≤◌, ◌<◌, length};
ghost use Rattle.task.specs.Marks.{EFFECT};
ghost use Rattle.task.specs.TaskRows.{row};
ghost use Rattle.writer.specs.Writer.{Room, Wrote};
ghost use Rattle.effects.specs.Effects.{Inside, denied_mark, both_rows, guard_end, guard_rows, changed_rows, close_rows, false_row_at, one_effect, false_effects};

use layout::sides::Span;
use task::marks;
use task::rows::Rows;
use writer::Cursor;

// What an effect's condition begins with: nothing, one or two literals, or rows of the source.
#[derive(Clone, Copy)]
pub enum Guard {
    Nothing,
    Holds(u32),
    Lacks(u32),
    BothHold(u32, u32),
    BothLack(u32, u32),
    Rows(Span),
}

// The facts that an effect changes.
#[derive(Clone, Copy)]
pub enum Change {
    Add(u32),
    AddBoth(u32, u32),
    Delete(u32),
}

// An effect: its guard, then rows of the source, and what it changes.
#[derive(Clone, Copy)]
pub struct Effect {
    pub guard: Guard,
    pub condition: Span,
    pub change: Change,
}

// HOLDS for LACKS, LACKS for HOLDS.
fn denied(mark: u8) -> u8
    ensures { result ≡ denied_mark mark }
{
    if mark == marks::HOLDS {
        marks::LACKS
    } else {
        marks::HOLDS
    }
}

// Two clauses, each of one literal.
fn put_both(out: &mut [u8], c: Cursor, mark: u8, fact: u32, other: u32) -> Cursor
    requires { Room c out.old }
    ensures { Wrote out.old c (both_rows mark fact other) result out.new }
{
    let k = writer::put_single(&mut *out, c, mark, fact);
    writer::put_single(&mut *out, k, mark, other)
}

fn put_guard(out: &mut [u8], c: Cursor, rows: &Rows, g: Guard) -> Cursor
    requires { Room c out.old × (guard_end g ≤ length rows.now.marks.now) }
    ensures { Wrote out.old c (guard_rows rows.now.marks.now rows.now.values.now g) result out.new }
{
    match g {
        Guard::Nothing => c,
        Guard::Holds(fact) => writer::put_single(&mut *out, c, marks::HOLDS, fact),
        Guard::Lacks(fact) => writer::put_single(&mut *out, c, marks::LACKS, fact),
        Guard::BothHold(fact, other) => put_both(&mut *out, c, marks::HOLDS, fact, other),
        Guard::BothLack(fact, other) => put_both(&mut *out, c, marks::LACKS, fact, other),
        Guard::Rows(s) => writer::copy_rows(&mut *out, c, rows, s),
    }
}

fn put_change(out: &mut [u8], c: Cursor, change: Change) -> Cursor
    requires { Room c out.old }
    ensures { Wrote out.old c (changed_rows change) result out.new }
{
    match change {
        Change::Add(fact) => writer::put_row(&mut *out, c, marks::ADD, fact),
        Change::AddBoth(fact, other) => {
            let k = writer::put_row(&mut *out, c, marks::ADD, fact);
            writer::put_row(&mut *out, k, marks::ADD, other)
        }
        Change::Delete(fact) => writer::put_row(&mut *out, c, marks::DELETE, fact),
    }
}

// Opens an effect, with its guard.
fn open_effect(out: &mut [u8], c: Cursor, rows: &Rows, g: Guard) -> Cursor
    requires { Room c out.old × (guard_end g ≤ length rows.now.marks.now) }
    ensures { Wrote out.old c (row EFFECT 0 ∷ guard_rows rows.now.marks.now rows.now.values.now g) result out.new }
{
    let k = writer::put_row(&mut *out, c, marks::EFFECT, 0);
    put_guard(&mut *out, k, rows, g)
}

// Ends the effect that is open, if one is.
fn close_effect(out: &mut [u8], c: Cursor, change: Change, begun: bool) -> Cursor
    requires { Room c out.old }
    ensures { Wrote out.old c (close_rows begun (changed_rows change)) result out.new }
{
    if !begun {
        return c;
    }
    put_change(&mut *out, c, change)
}

pub fn put_effect(out: &mut [u8], c: Cursor, rows: &Rows, e: Effect) -> Cursor
    requires { Room c out.old × Inside rows.now.marks.now e }
    ensures { Wrote out.old c (one_effect rows.now.marks.now rows.now.values.now e) result out.new }
{
    let k = open_effect(&mut *out, c, rows, e.guard);
    let k = writer::copy_rows(&mut *out, k, rows, e.condition);
    put_change(&mut *out, k, e.change)
}

// Row j of an effect's condition: a clause opens the next effect, a literal is denied. `begun` says that an effect is open.
fn false_row(out: &mut [u8], c: Cursor, rows: &Rows, e: Effect, j: usize, begun: bool) -> Cursor
    requires { Room c out.old × Inside rows.now.marks.now e × (j < length rows.now.marks.now) }
    ensures { Wrote out.old c (false_row_at rows.now.marks.now rows.now.values.now e j begun) result out.new }
{
    let mark = rows.marks[j];
    if mark != marks::CLAUSE {
        return writer::put_single(&mut *out, c, denied(mark), rows.value(j));
    }
    let k = close_effect(&mut *out, c, e.change, begun);
    open_effect(&mut *out, k, rows, e.guard)
}

// One effect for each clause of the condition, whose literals are denied.
pub fn each_false(out: &mut [u8], c: Cursor, rows: &Rows, e: Effect) -> Cursor
    requires { Room c out.old × Inside rows.now.marks.now e }
    ensures { Wrote out.old c (false_effects rows.now.marks.now rows.now.values.now e) result out.new }
{
    let mut begun = false;
    let mut k = c;
    for j in e.condition.from..e.condition.to {
        if writer::OVERFULL <= k.next {
            return k;
        }
        k = false_row(&mut *out, k, rows, e, j, begun);
        begun |= rows.marks[j] == marks::CLAUSE;
    }
    close_effect(&mut *out, k, e.change, begun)
}
