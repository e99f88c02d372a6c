// A table that finds states by their hash: open addressing, the next slot being tried where one is taken.
#![tactic(auto)]

ghost use Rattle.std.specs.Prelude.{◌≡◌, ℕ, ◌<◌};
ghost use Rattle.node_words.specs.Words.{RoomFor};
ghost use Rattle.state_table.specs.Table.{SLOTS, home_of, stops_at, Tabled, Probed};

use node_words;
use node_words::limits;
use state::State;

// The number of slots: twice as many as nodes, so that there is always an empty one.
pub const SLOTS: usize = 2 * limits::MAX_NODES;

// Whether a slot with this entry ends the way: it is empty, or the entry's node has the state.
fn stops(entry: u16, words: &[u64], s: State) -> bool
    requires { RoomFor words.now entry }
    ensures { result ≡ stops_at words.now s entry }
{
    match node_words::place_of(entry) {
        None => true,
        Some(p) => node_words::state_at(words, p) == s,
    }
}

// The slot that the hash of a state says.
fn home(s: State) -> usize
    ensures { (result ≡ home_of s) × (result < SLOTS) }
{
    (fnv::of_state(s) as usize) % SLOTS
}

// The slot of a state: the one that has its node's place, or the empty one that it would take.
pub fn probe(table: &[u16], words: &[u64], s: State) -> usize
    requires { (n : ℕ) × Tabled table.now words.now n }
    ensures { (n : ℕ) → Tabled table.now words.now n → Probed table.now words.now n s result }
{
    let from = home(s);
    for d in 0..SLOTS {
        let slot = (from + d) % SLOTS;
        if stops(table[slot], words, s) {
            return slot;
        }
    }
    0
}
