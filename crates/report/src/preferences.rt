// A line per preference, written as the rows are read.
ghost use Rattle.std.specs.Prelude.{◌≡◌, ◌+◌, ◌*◌, ◌^◌, ◌≤◌, ◌<◌, length};
ghost use Rattle.state.specs.Member.{bit};
ghost use Rattle.task.specs.TaskRows.{row};
ghost use Rattle.task.specs.File.{paired, is_preference};
ghost use Rattle.task.specs.Check.{count};
ghost use Rattle.text.specs.Area.{Wrote};
ghost use Rattle.report.specs.Rows.{row_line, row_lines};

use task::rows::Rows;

// Where the next line goes, and the number of the next preference.
#[derive(Clone, Copy)]
pub struct Next {
    pub at: usize,
    pub number: usize,
}

// Writes the line of a row that opens a preference, and nothing for another row.
fn put_row(out: &mut [u8], next: Next, mark: u8, value: u32, met: u64) -> Next
    requires { (next.at + 70 < 2 ^ 64) × (next.number < 2 ^ 32) }
    ensures wrote { Wrote out.old next.at (row_line (bit met) next.number (row mark value)) result.at out.new }
    ensures number_value { (result.number ≡ count (is_preference (row mark value)) next.number)
        × (result.at ≤ next.at + 70) × (result.number ≤ next.number + 1) }
{
    let at = next.at;
    let k = next.number;
    if !task::is_preference(mark) {
        return next;
    }
    Next {
        at: report_lines::put_preference(out, at, k, mark, value, settling::is_met(met, k as u32)),
        number: k + 1,
    }
}

// Writes the lines of all rows.
pub fn put_rows(out: &mut [u8], at: usize, met: u64, rows: &Rows) -> usize
    requires { at + 70 * length rows.now.marks.now < 2 ^ 64 }
    ensures wrote { Wrote out.old at (row_lines (bit met) 0 (paired rows.now.marks.now rows.now.values.now)) result out.new }
    ensures upper_bound { result ≤ at + 70 * length rows.now.marks.now }
{
    let mut next = Next { at, number: 0 };
    for i in 0..rows.marks.len() {
        next = put_row(&mut *out, next, rows.marks[i], rows.value(i), met);
    }
    next.at
}
