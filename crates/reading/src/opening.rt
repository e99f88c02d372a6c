// The opening state, read from the START rows.
ghost use Rattle.std.specs.Prelude.{◌≡◌};
ghost use Rattle.state.specs.Member.{empty};
ghost use Rattle.reading.specs.Effects.{result_of};
ghost use Rattle.reading.specs.Opening.{open_at};

use super::effects::Applied;
use task::marks;
use task::rows::Rows;

// The state of the facts that the START rows name, and the row after them.
pub fn opening(rows: &Rows) -> Applied
    ensures { result_of result ≡ open_at empty rows.now.marks.now rows.now.values.now 0 }
{
    let mut s = state::none();
    for i in 0..rows.marks.len() {
        if rows.marks[i] != marks::START {
            return Applied { state: s, next: i };
        }
        s = state::with(s, rows.value(i));
    }
    Applied {
        state: s,
        next: rows.marks.len(),
    }
}
