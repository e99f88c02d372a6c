// The whole spelling.
ghost use Rattle.std.specs.Prelude.{true, ◌≡◌, ◌+◌, ◌*◌, ◌≤◌, length};
ghost use Rattle.task.specs.File.{paired, file_of_rows};
ghost use Rattle.task.specs.Limits.{MAX_FILE};
ghost use Rattle.task.specs.Check.{sizes_allowed};
ghost use Rattle.task.specs.Answers.{as_sizes};
ghost use Rattle.writer.specs.Writer.{Room, Wrote};
ghost use Rattle.spelling.specs.Spelled.{spelled_rows, Shorter};
ghost use Rattle.spelling.specs.Outcome.{Fitted};

use super::{rising, runs};
use layout::sides::Span;
use task::rows::Rows;
use task::{Refusal, Sizes, limits};
use writer::Cursor;

// Areas of our own for up to 64 rows and for up to 1024: an area costs what it is long.
const SMALL: usize = 8 + 5 * 64;

const MEDIUM: usize = 8 + 5 * 1024;

// Writes the rows of the spelling: each run by rising fact, and every other row as it stands.
fn put_task(out: &mut [u8], c: Cursor, rows: &Rows) -> Cursor
    requires { Room c out.old }
    ensures { Wrote out.old c (spelled_rows (paired rows.now.marks.now rows.now.values.now)) result out.new }
{
    let mut i = 0;
    let mut k = c;
    while i < rows.marks.len() {
        let mark = rows.marks[i];
        if runs::is_listed(mark) {
            let a = runs::first_mark(mark);
            let b = runs::second_mark(mark);
            let g = runs::gather(rows, i, a, b);
            k = rising::put_rising(&mut *out, k, a, b, g.first, g.second);
            i = g.next;
        } else {
            k = writer::put_row(&mut *out, k, mark, rows.value(i));
            i += 1;
        }
    }
    k
}

// Writes the file of the spelling, where it fits. Its rows are written into an area of our own first, since the values stand after all
// marks, and how many there are is known at the end.
fn put_through(own: &mut [u8], out: &mut [u8], rows: &Rows, z: Sizes) -> Result<usize, Refusal>
    requires { Shorter rows.now.marks.now rows.now.values.now × (sizes_allowed (as_sizes z) ≡ true)
        × (8 + 5 * length rows.now.marks.now ≤ length own.old) }
    ensures { let spelled = spelled_rows (paired rows.now.marks.now rows.now.values.now) in
        Fitted (file_of_rows z.facts z.actions z.preferences spelled) out.old result out.new }
{
    let room = rows.marks.len();
    let c = Cursor {
        rows: room,
        next: 0,
    };
    let k = put_task(&mut *own, c, rows);
    let n = k.next;
    let length = outcome::fitted(8 + 5 * n, out.len())?;
    writer::put_sizes(
        &mut *out,
        z.facts as u32,
        z.actions as u32,
        z.preferences as u32,
        n as u32,
    );
    let first = Cursor { rows: n, next: 0 };
    let middle = 8 + room;
    let own_rows = Rows {
        marks: &own[8..middle],
        values: &own[middle..],
    };
    let all = Span { from: 0, to: n };
    let _ = writer::copy_rows(&mut *out, first, &own_rows, all);
    Ok(length)
}

// Writes the file of the spelling with an area of our own of N bytes.
fn put_by_area<const N: usize>(out: &mut [u8], rows: &Rows, z: Sizes) -> Result<usize, Refusal>
    requires { Shorter rows.now.marks.now rows.now.values.now × (sizes_allowed (as_sizes z) ≡ true)
        × (8 + 5 * length rows.now.marks.now ≤ N) × (N ≤ MAX_FILE) }
    ensures { let spelled = spelled_rows (paired rows.now.marks.now rows.now.values.now) in
        Fitted (file_of_rows z.facts z.actions z.preferences spelled) out.old result out.new }
{
    let mut own = [0u8; N];
    put_through(&mut own, out, rows, z)
}

// Writes the file of the spelling, where it fits.
pub fn put_file(out: &mut [u8], rows: &Rows, z: Sizes) -> Result<usize, Refusal>
    requires { Shorter rows.now.marks.now rows.now.values.now × (sizes_allowed (as_sizes z) ≡ true) }
    ensures { let spelled = spelled_rows (paired rows.now.marks.now rows.now.values.now) in
        Fitted (file_of_rows z.facts z.actions z.preferences spelled) out.old result out.new }
{
    let room = 8 + 5 * rows.marks.len();
    if room <= SMALL {
        return put_by_area::<SMALL>(out, rows, z);
    }
    if room <= MEDIUM {
        return put_by_area::<MEDIUM>(out, rows, z);
    }
    put_by_area::<{ limits::MAX_FILE }>(out, rows, z)
}
