// The rows of the translated task, written into a file or only counted.
#![tactic(auto)]

pub mod further;
mod parts;
pub mod places;

ghost use Rattle.std.specs.Prelude.{◌≡◌, ◌≤◌, length};
ghost use Rattle.task.specs.Limits.{MAX_FACTS};
ghost use Rattle.writer.specs.Writer.{row_after, Room, Wrote};
ghost use Rattle.translated_rows.specs.Parts.{Source, Found, Placed, opening_at, all_actions, GoalInside};
ghost use Rattle.translated_rows.specs.Parts.{translated_rows};

use layout::sides;
use layout::sides::Span;
use places::Places;
use task::rows::Rows;
use task::{Sizes, limits, marks};
use writer::Cursor;

// The opening and the goal.
fn put_opening(out: &mut [u8], c: Cursor, rows: &Rows, p: Places, facts: u32, normal: u32) -> Cursor
    requires { Room c out.old × GoalInside rows.now.marks.now p.goal p.from × (facts ≤ MAX_FACTS) × (normal ≤ MAX_FACTS) }
    ensures { Wrote out.old c (opening_at rows.now.marks.now rows.now.values.now p.goal p.from facts normal) result out.new }
{
    let opening = Span {
        from: 0,
        to: p.goal,
    };
    let clauses = Span {
        from: p.goal,
        to: p.from,
    };
    let ended = normal + 1;
    let k = writer::copy_rows(&mut *out, c, rows, opening);
    let k = writer::put_row(&mut *out, k, marks::START, normal);
    let k = writer::copy_rows(&mut *out, k, rows, clauses);
    let k = writer::put_single(&mut *out, k, marks::HOLDS, ended);
    parts::put_all_closed(&mut *out, k, facts, ended)
}

// The actions of the source, end, collect and forgo.
fn put_all_actions(
    out: &mut [u8],
    c: Cursor,
    rows: &Rows,
    s: Span,
    starts: &[usize],
    facts: u32,
    normal: u32,
) -> Cursor
    requires { Room c out.old × Placed rows.now.marks.now rows.now.values.now facts s starts.now normal }
    ensures { Wrote out.old c (all_actions rows.now.marks.now rows.now.values.now facts) result out.new }
{
    let ended = normal + 1;
    let k = parts::put_actions(&mut *out, c, rows, s, starts, facts, normal);
    let k = parts::put_end(&mut *out, k, rows, starts, facts, normal);
    closings::put_closings(&mut *out, k, rows, starts, facts, ended)
}

// Writes the rows of the translation of the task that the rows spell.
pub fn put_task(out: &mut [u8], c: Cursor, rows: &Rows, p: Places, z: Sizes) -> Cursor
    requires { Room c out.old × Found rows.now.marks.now p × Source rows.now.marks.now rows.now.values.now z.facts z.preferences }
    ensures { Wrote out.old c (translated_rows rows.now.marks.now rows.now.values.now z.facts) result out.new }
{
    let facts = z.facts as u32;
    let normal = facts + 3 * (z.preferences as u32);
    let mut table = [0; limits::MAX_PREFERENCES];
    sides::note_starts(rows.marks, p.to, z.preferences, &mut table);
    let starts = &table[..z.preferences];
    let k = put_opening(&mut *out, c, rows, p, facts, normal);
    let s = Span {
        from: p.from,
        to: p.to,
    };
    put_all_actions(&mut *out, k, rows, s, starts, facts, normal)
}

// How many rows that translation has, up to 12,001: it is written into a file of no rows.
pub fn count_rows(rows: &Rows, p: Places, z: Sizes) -> usize
    requires { Found rows.now.marks.now p × Source rows.now.marks.now rows.now.values.now z.facts z.preferences }
    ensures { result ≡ row_after 0 (length (translated_rows rows.now.marks.now rows.now.values.now z.facts)) }
{
    let mut nothing = [0; 8];
    let c = Cursor { rows: 0, next: 0 };
    put_task(&mut nothing, c, rows, p, z).next
}
