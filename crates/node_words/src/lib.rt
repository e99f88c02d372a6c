// The nodes of a search as words, four for each.
#![tactic(auto)]

pub mod limits;

ghost use Rattle.std.specs.Prelude.{◌≡◌, suc, ◌<◌, MatchOption};
ghost use Rattle.searching.specs.Limits.{MAX_NODES};
ghost use Rattle.node_words.specs.Words.{Placed, packed_at, state_of, as_node, Written};

use state::State;

// A node: the two words of its state, its cost, and its origin times 256 plus its action.
#[derive(Clone, Copy)]
pub struct Packed {
    pub low: u64,
    pub high: u64,
    pub cost: u64,
    pub link: u64,
}

impl Packed {
    // The state that the node's words are.
    pub fn state(self) -> State
        ensures { result ≡ state_of self }
    {
        State {
            low: self.low,
            high: self.high,
        }
    }

    // The place that the node was reached from.
    pub fn origin(self) -> usize
        ensures { result ≡ (as_node self).origin }
    {
        (self.link / 256) as usize
    }

    // The action that led to it.
    pub fn action(self) -> u8
        ensures { result ≡ (as_node self).action }
    {
        (self.link % 256) as u8
    }
}

// The place that an entry of a table or a tree names: p + 1 is place p, and 0 is none.
pub fn place_of(entry: u16) -> Option<usize>
    ensures { MatchOption result (entry ≡ 0) (λ p. entry ≡ suc p) }
{
    usize::from(entry).checked_sub(1)
}

// The entry that names place p.
pub fn entry_of(p: usize) -> u16
    requires { p < MAX_NODES }
    ensures { result ≡ suc p }
{
    (p + 1) as u16
}

// The node at place p.
pub fn node_at(words: &[u64], p: usize) -> Packed
    requires { Placed words.now p }
    ensures { result ≡ packed_at words.now p }
{
    let at = 4 * p;
    let low = words[at];
    let high = words[at + 1];
    let cost = words[at + 2];
    let link = words[at + 3];
    Packed {
        low,
        high,
        cost,
        link,
    }
}

// The state of the node at place p.
pub fn state_at(words: &[u64], p: usize) -> State
    requires { Placed words.now p }
    ensures { result ≡ state_of (packed_at words.now p) }
{
    State {
        low: words[4 * p],
        high: words[4 * p + 1],
    }
}

// The cost of the node at place p.
pub fn cost_at(words: &[u64], p: usize) -> u64
    requires { Placed words.now p }
    ensures { result ≡ (packed_at words.now p).cost }
{
    words[4 * p + 2]
}

// Writes a node at place p.
pub fn put_node(words: &mut [u64], p: usize, x: Packed)
    requires { Placed words.old p }
    ensures { Written words.old words.new p x }
{
    let at = 4 * p;
    words[at] = x.low;
    words[at + 1] = x.high;
    words[at + 2] = x.cost;
    words[at + 3] = x.link;
}
