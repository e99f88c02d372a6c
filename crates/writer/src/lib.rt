// Rows, written into a file that has room for them, or only counted where the file has none.
#![tactic(auto)]

ghost use Rattle.std.specs.Prelude.{◌≡◌, List, [], ◌∷◌, ◌+◌, ◌*◌, ◌-◌, ◌≤◌, ◌<◌, min, length, take, drop};
ghost use Rattle.std.proofs.lemmas.List.Edits.{sets};
ghost use Rattle.task.specs.Marks.{CLAUSE};
ghost use Rattle.task.specs.TaskRows.{Row, row};
ghost use Rattle.task.specs.File.{bytes16};
ghost use Rattle.layout.specs.Sides.{part};
ghost use Rattle.writer.specs.Writer.{row_after, put_row, put_rows, Room, Wrote, Standing, header, Earlier};

use layout::sides::Span;
use task::rows::Rows;
use task::{limits, marks};

// One row more than a file may have: a count that has come this far stays, and every loop that counts ends.
pub const OVERFULL: usize = limits::MAX_ROWS + 1;

// Where the next row goes: row `next` of a file that has room for so many rows.
#[derive(Clone, Copy)]
pub struct Cursor {
    pub rows: usize,
    pub next: usize,
}

// Writes the next row, for which there is room.
fn store_row(out: &mut [u8], c: Cursor, mark: u8, value: u32)
    requires { (c.next < c.rows) × Room c out.old }
    ensures { out.new ≡ put_row out.old c.rows c.next mark value }
{
    out[8 + c.next] = mark;
    let k = 8 + c.rows + 4 * c.next;
    out[k..k + 4].copy_from_slice(&value.to_le_bytes());
}

// The cursor after so many rows, without going through them.
pub fn advance_by(c: Cursor, many: usize) -> Cursor
    ensures { (result.rows ≡ c.rows) × (result.next ≡ row_after c.next many) }
{
    let left = OVERFULL.saturating_sub(c.next);
    Cursor {
        rows: c.rows,
        next: c.next + many.min(left),
    }
}

// Writes the next row, if the file has room for it.
pub fn put_row(out: &mut [u8], c: Cursor, mark: u8, value: u32) -> Cursor
    requires { Room c out.old }
    ensures { Wrote out.old c (row mark value ∷ []) result out.new }
{
    if c.rows <= c.next {
        return advance_by(c, 1);
    }
    store_row(&mut *out, c, mark, value);
    advance_by(c, 1)
}

// Copies so many bytes, from byte `from` of the source to byte `at`. The library's copy would have the archive for C call memmove.
fn copy_bytes(out: &mut [u8], at: usize, source: &[u8], from: usize, many: usize)
    requires { (at + many ≤ length out.old) × (from + many ≤ length source.now) }
    ensures { out.new ≡ sets out.old at (take many (drop from source.now)) }
{
    for j in 0..many {
        out[at + j] = source[from + j];
    }
}

// Writes rows of the source, for the first of which there is room.
fn store_rows(out: &mut [u8], c: Cursor, rows: &Rows, s: Span)
    requires { (c.next < c.rows) × Room c out.old × (s.from ≤ s.to) × (s.to ≤ length rows.now.marks.now) }
    ensures { out.new ≡ put_rows out.old c.rows c.next (part rows.now.marks.now rows.now.values.now s) }
{
    let i = c.next;
    let from = s.from;
    let many = usize::min(s.to - from, c.rows - i);
    let at = 8 + i;
    copy_bytes(&mut *out, at, rows.marks, from, many);
    let beside = 8 + c.rows + 4 * i;
    copy_bytes(&mut *out, beside, rows.values, 4 * from, 4 * many);
}

// Copies rows of the source.
pub fn copy_rows(out: &mut [u8], c: Cursor, rows: &Rows, s: Span) -> Cursor
    requires { Room c out.old × (s.to ≤ length rows.now.marks.now) }
    ensures { Wrote out.old c (part rows.now.marks.now rows.now.values.now s) result out.new }
{
    if s.to <= s.from {
        return c;
    }
    let many = s.to - s.from;
    if c.next >= c.rows {
        return advance_by(c, many);
    }
    store_rows(&mut *out, c, rows, s);
    advance_by(c, many)
}

// Copies so many bytes of the area itself, from byte `from` to byte `at`, which lies after them.
fn repeat_bytes(out: &mut [u8], at: usize, from: usize, many: usize)
    requires { (from + many ≤ at) × (at + many ≤ length out.old) }
    ensures { out.new ≡ sets out.old at (take many (drop from out.old)) }
{
    for j in 0..many {
        out[at + j] = out[from + j];
    }
}

// Writes rows of the file once more, for the first of which there is room.
fn store_again(out: &mut [u8], c: Cursor, s: Span)
    requires { (c.next < c.rows) × Room c out.old × Earlier c s }
    ensures { (xs : List Row) → Standing out.old c.rows s xs → out.new ≡ put_rows out.old c.rows c.next xs }
{
    let i = c.next;
    let from = s.from;
    let many = usize::min(s.to - from, c.rows - i);
    repeat_bytes(&mut *out, 8 + i, 8 + from, many);
    let values = 8 + c.rows;
    repeat_bytes(&mut *out, values + 4 * i, values + 4 * from, 4 * many);
}

// Writes rows again that were written before.
pub fn repeat_rows(out: &mut [u8], c: Cursor, s: Span) -> Cursor
    requires { Room c out.old × Earlier c s }
    ensures { (xs : List Row) → Standing out.old c.rows s xs → Wrote out.old c xs result out.new }
{
    let many = s.to - s.from;
    if c.next >= c.rows {
        return advance_by(c, many);
    }
    store_again(&mut *out, c, s);
    advance_by(c, many)
}

// Writes a clause of one literal.
pub fn put_single(out: &mut [u8], c: Cursor, mark: u8, fact: u32) -> Cursor
    requires { Room c out.old }
    ensures { Wrote out.old c (row CLAUSE 0 ∷ row mark fact ∷ []) result out.new }
{
    let k = put_row(&mut *out, c, marks::CLAUSE, 0);
    put_row(&mut *out, k, mark, fact)
}

// Writes a size's two bytes, the lower first.
fn put_size(out: &mut [u8], k: usize, v: u32)
    requires { k + 2 ≤ length out.old }
    ensures { out.new ≡ sets out.old k (bytes16 v) }
{
    out[k..k + 2].copy_from_slice(&v.to_le_bytes()[..2]);
}

// Writes the sizes of a file.
pub fn put_sizes(out: &mut [u8], facts: u32, actions: u32, preferences: u32, rows: u32)
    requires { 8 ≤ length out.old }
    ensures { out.new ≡ sets out.old 0 (header facts actions preferences rows) }
{
    put_size(&mut *out, 0, facts);
    put_size(&mut *out, 2, actions);
    put_size(&mut *out, 4, preferences);
    put_size(&mut *out, 6, rows);
}
