// The facts D1, D2 and so on of all preferences.
ghost use Rattle.std.specs.Prelude.{◌≡◌, ◌≤◌, ◌*◌, length, drop};
ghost use Rattle.task.specs.TaskRows.{row};
ghost use Rattle.task.specs.File.{paired};
ghost use Rattle.task.specs.Limits.{MAX_ROWS, DEADLINES};
ghost use Rattle.translated_rows.specs.Further.{further_row, further_rows};

use task::rows::Rows;
use task::{limits, marks};

fn count_row(mark: u8, value: u32) -> u32
    ensures { (result ≡ further_row (row mark value)) × (result ≤ DEADLINES) }
{
    match mark {
        marks::STEPS => value % limits::DEADLINES,
        marks::WITHIN => 1,
        marks::HARD_WITHIN => 1,
        _ => 0,
    }
}

// How many there are, of preferences that begin at row `at`.
pub fn count(rows: &Rows, at: usize) -> u32
    requires { at ≤ length rows.now.marks.now }
    ensures { (result ≡ further_rows (drop at (paired rows.now.marks.now rows.now.values.now))) × (result ≤ DEADLINES * MAX_ROWS) }
{
    let mut d = 0;
    for i in at..rows.marks.len() {
        d += count_row(rows.marks[i], rows.value(i));
    }
    d
}
