// The whole file.
ghost use Rattle.std.specs.Prelude.{◌≡◌, true, ◌≤◌, length};
ghost use Rattle.meaning.specs.Task.{Task};
ghost use Rattle.task.specs.TaskRows.{task_rows};
ghost use Rattle.task.specs.File.{file_of_rows};
ghost use Rattle.task.specs.Check.{sizes_allowed};
ghost use Rattle.task.specs.Answers.{as_sizes};
ghost use Rattle.writer.specs.Writer.{row_after, Room, Wrote};
ghost use Rattle.singling.specs.Singled.{singled};
ghost use Rattle.single_effects.specs.Whole.{NoEffects, Narrow, Fitted};

use super::{choosing, shapes};
use layout::sides::Span;
use task::refused::Cause;
use task::rows::Rows;
use task::{Refusal, Sizes, limits, marks};
use writer::Cursor;

// Writes the rows of the new task: each effect with several choices by these, and the rows between such effects as they stand, since an
// effect with one choice stays as it is. None begins from row `last` on.
fn put_task(out: &mut [u8], c: Cursor, rows: &Rows, last: usize) -> Cursor
    requires room { Room c out.old × (last ≤ length rows.now.marks.now) × NoEffects rows.now.marks.now last (length rows.now.marks.now) }
    requires narrow { (t : Task) × Narrow rows.now.marks.now rows.now.values.now t }
    ensures { (t : Task) → Narrow rows.now.marks.now rows.now.values.now t
        → Wrote out.old c (task_rows (singled t)) result out.new }
{
    let mut from = 0;
    let mut i = 0;
    let mut k = c;
    while i < last {
        if rows.marks[i] == marks::EFFECT {
            let s = shapes::shape_of(rows.marks, i);
            if s.choices == 1 {
                i = s.changes.to;
            } else {
                k = writer::copy_rows(&mut *out, k, rows, Span { from, to: i });
                k = choosing::put_effect(&mut *out, k, rows, i, s);
                i = s.changes.to;
                from = i;
            }
        } else {
            i += 1;
        }
    }
    let to = rows.marks.len();
    writer::copy_rows(&mut *out, k, rows, Span { from, to })
}

// How many rows it has: it is written into a file of no rows.
fn count_rows(rows: &Rows, last: usize) -> usize
    requires rows { (last ≤ length rows.now.marks.now) × NoEffects rows.now.marks.now last (length rows.now.marks.now) }
    requires narrow { (t : Task) × Narrow rows.now.marks.now rows.now.values.now t }
    ensures { (t : Task) → Narrow rows.now.marks.now rows.now.values.now t → result ≡ row_after 0 (length (task_rows (singled t))) }
{
    let mut nothing: [u8; 8] = [0; 8];
    let c = Cursor { rows: 0, next: 0 };
    let k = put_task(&mut nothing, c, rows, last);
    k.next
}

// Writes the file of the new task, where it fits.
pub fn put_file(out: &mut [u8], rows: &Rows, z: Sizes, last: usize) -> Result<usize, Refusal>
    requires rows { (last ≤ length rows.now.marks.now) × NoEffects rows.now.marks.now last (length rows.now.marks.now) }
    requires sizes { sizes_allowed (as_sizes z) ≡ true }
    requires narrow { (t : Task) × Narrow rows.now.marks.now rows.now.values.now t }
    ensures { (t : Task) → Narrow rows.now.marks.now rows.now.values.now t
        → let written = task_rows (singled t) in
        Fitted (length written) (file_of_rows z.facts z.actions z.preferences written) out.old result out.new }
{
    let n = count_rows(rows, last);
    if limits::MAX_ROWS < n {
        return Err(Cause::TranslationRows.at(0));
    }
    let length = outcome::fitted(8 + 5 * n, out.len())?;
    writer::put_sizes(
        &mut *out,
        z.facts as u32,
        z.actions as u32,
        z.preferences as u32,
        n as u32,
    );
    let c = Cursor { rows: n, next: 0 };
    let _ = put_task(&mut *out, c, rows, last);
    Ok(length)
}
