// The search on the rows of a task, from its opening node on.
ghost use Rattle.std.specs.Prelude.{◌≡◌, ◌≤◌, length};
ghost use Rattle.meaning.specs.Task.{Task};
ghost use Rattle.task.specs.Limits.{MAX_ACTIONS};
ghost use Rattle.layout.specs.Rows.{Spells, Spelled};
ghost use Rattle.layout.specs.Actions.{actions_from};
ghost use Rattle.searching.specs.Limits.{NodeLimit};
ghost use Rattle.searching.specs.Search;
ghost use Rattle.node_words.specs.Words.{LIST_WORDS};
ghost use Rattle.exploring.specs.Exploring.{as_answer};

use exploring;
use exploring::Ended;
use layout::actions;
use meeting;
use meeting::Index;
use node_words::Packed;
use reading::opening;
use state_table;
use task::limits;
use task::rows::Rows;
use tournament;

// Searches the task that the rows spell. The opening node is met as any other, by a table and a tree that hold none.
pub fn on_rows(rows: &Rows, limit: usize, words: &mut [u64]) -> Ended
    requires rows { Spelled rows.now.marks.now rows.now.values.now × (length (actions_from 0 rows.now.marks.now) ≤ MAX_ACTIONS) }
    requires node_limit { NodeLimit limit × (length words.old ≡ LIST_WORDS) }
    ensures { (t : Task) → Spells rows.now.marks.now rows.now.values.now t → as_answer words.new result ≡ Search.explore t limit }
{
    let start = opening::opening(rows);
    let goal = start.next + 1;
    let s = start.state;
    let mut starts: [usize; limits::MAX_ACTIONS] = [0; limits::MAX_ACTIONS];
    let many = actions::note_actions(rows.marks, &mut starts);
    let mut index = Index {
        table: [0; state_table::SLOTS],
        tree: [0; tournament::ENTRIES],
    };
    let x = Packed {
        low: s.low,
        high: s.high,
        cost: 0,
        link: 0,
    };
    meeting::meet(&mut *words, &mut index, 0, limit, x);
    exploring::explore(rows, &starts[0..many], goal, limit, &mut *words, &mut index)
}
