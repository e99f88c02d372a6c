// The actions of a node that the search takes, tried by number.
#![tactic(auto)]

ghost use Rattle.std.specs.Prelude.{◌≡◌, Bool, ℕ, ◌+◌, ◌*◌, ◌<◌, ◌≤◌, length, IfSome};
ghost use Rattle.meaning.specs.Task.{Task};
ghost use Rattle.layout.specs.Actions.{ActionAt, SomeAction};
ghost use Rattle.searching.specs.Limits.{MAX_NODES};
ghost use Rattle.meeting.specs.Meeting.{nodes_in, wanted};
ghost use Rattle.expanding.specs.Expanding.{Listed, Trying, Tried, Expanding, Expanded};

use leading;
use meeting;
use meeting::Index;
use node_words;
use node_words::Packed;
use task::rows::Rows;

// The place that is taken, the number of nodes, and the most that there may be.
#[derive(Clone, Copy)]
pub struct Turn {
    pub place: usize,
    pub nodes: usize,
    pub limit: usize,
}

// The row of an action, the link of a node that it leads to, the number of nodes, and the most that there may be.
#[derive(Clone, Copy)]
struct Trial {
    pub from: usize,
    pub link: u64,
    pub nodes: usize,
    pub limit: usize,
}

// The link of a node that an action leads to from a place.
fn link(place: usize, action: usize) -> u64
    requires { (place < MAX_NODES) × (action < 256) }
    ensures { result ≡ place * 256 + action }
{
    (place as u64) * 256 + (action as u64)
}

// Tries one action from node x: how many nodes there are then, or none where one had no room.
fn try_action(
    rows: &Rows,
    trial: Trial,
    x: Packed,
    words: &mut [u64],
    index: &mut Index,
) -> Option<usize>
    requires rows { (trial.from < length rows.now.marks.now) × SomeAction rows.now.marks.now rows.now.values.now trial.from }
    requires by_index { (taken : ℕ → Bool) × Trying trial.limit x (nodes_in words.old index.old.table index.old.tree trial.nodes taken) }
    ensures tried { let before = nodes_in words.old index.old.table index.old.tree trial.nodes in
        let after = nodes_in words.new index.new.table index.new.tree (wanted trial.limit result) in
        ((t : Task) (k : ℕ) (taken : ℕ → Bool) → ActionAt rows.now.marks.now rows.now.values.now trial.from t k
        → Trying trial.limit x (before taken) → Tried trial x (before taken) (after taken) t k) }
    ensures within { IfSome result (λ m. m ≤ trial.limit) }
{
    let Some(y) = leading::lead(rows, trial.from, x, trial.link) else {
        return Some(trial.nodes);
    };
    meeting::meet(&mut *words, &mut *index, trial.nodes, trial.limit, y)
}

// Tries the actions, whose rows are `starts`, from the taken place: how many nodes there are then, or none where one had no room.
pub fn expand(
    rows: &Rows,
    starts: &[usize],
    turn: Turn,
    words: &mut [u64],
    index: &mut Index,
) -> Option<usize>
    requires { (t : Task) × (taken : ℕ → Bool) × Listed rows.now.marks.now rows.now.values.now starts.now t
        × Expanding turn (nodes_in words.old index.old.table index.old.tree turn.nodes taken) t }
    ensures expanded { let before = nodes_in words.old index.old.table index.old.tree turn.nodes in
        let after = nodes_in words.new index.new.table index.new.tree (wanted turn.limit result) in
        ((t : Task) (taken : ℕ → Bool) → Listed rows.now.marks.now rows.now.values.now starts.now t
        → Expanding turn (before taken) t → Expanded turn (before taken) (after taken) t) }
    ensures within { IfSome result (λ m. m ≤ turn.limit) }
{
    let x = node_words::node_at(&*words, turn.place);
    let mut n = turn.nodes;
    for (k, from) in starts.iter().enumerate() {
        let trial = Trial {
            from: *from,
            link: link(turn.place, k),
            nodes: n,
            limit: turn.limit,
        };
        n = try_action(rows, trial, x, &mut *words, &mut *index)?;
    }
    Some(n)
}
