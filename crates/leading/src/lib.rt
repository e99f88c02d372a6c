// Where an action leads from a node of the search.
#![tactic(auto)]

ghost use Rattle.std.specs.Prelude.{ℕ, ◌<◌, length};
ghost use Rattle.meaning.specs.Task.{Task};
ghost use Rattle.layout.specs.Counting.{AMPLE};
ghost use Rattle.layout.specs.Actions.{ActionAt, SomeAction};
ghost use Rattle.leading.specs.Leading.{LedAs};

use node_words::Packed;
use reading::{conditions, effects};
use task::rows::Rows;

// Where the action that row `from` opens leads from node x, or none where it does not apply; the new node gets the link.
pub fn lead(rows: &Rows, from: usize, x: Packed, link: u64) -> Option<Packed>
    requires rows { (from < length rows.now.marks.now) × (x.cost < AMPLE) }
    requires some_action { SomeAction rows.now.marks.now rows.now.values.now from }
    ensures { (t : Task) (k : ℕ) → ActionAt rows.now.marks.now rows.now.values.now from t k → LedAs t k x link result }
{
    let s = x.state();
    let pre = conditions::condition(rows, from + 1, s);
    if !pre.holds {
        return None;
    }
    let next = effects::after(rows, pre.next, s);
    Some(Packed {
        low: next.low,
        high: next.high,
        cost: x.cost + (rows.value(from) as u64),
        link,
    })
}
