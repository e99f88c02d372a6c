// The open places of a search in a tournament tree, whose root is the cheapest.
#![tactic(auto)]

ghost use Rattle.std.specs.Prelude.{◌≡◌, Bool, cond, ℕ, suc, ◌+◌, ◌/◌, ◌<◌};
ghost use Rattle.searching.specs.Limits.{MAX_NODES};
ghost use Rattle.node_words.specs.Words.{Placed};
ghost use Rattle.tournament.specs.Tournament.{LEAVES, cheaper, Known, OnWay, Nowhere, Played, with_leaf};

use node_words;
use node_words::limits;

// The leaf of place 0; the leaf of place p is p after it.
pub const LEAVES: usize = limits::MAX_NODES;

// The entries of a tree; entry 0 is none of its nodes.
pub const ENTRIES: usize = 2 * LEAVES;

// The cheaper of two entries, on ties the first; 0 is none, and p + 1 the node at place p.
fn cheaper(words: &[u64], a: u16, b: u16) -> u16
    requires { Known words.now a × Known words.now b }
    ensures { (result ≡ cheaper words.now a b) × Known words.now result }
{
    let Some(p) = node_words::place_of(a) else {
        return b;
    };
    let Some(q) = node_words::place_of(b) else {
        return a;
    };
    if node_words::cost_at(words, q) < node_words::cost_at(words, p) {
        b
    } else {
        a
    }
}

// Plays the games from node k up to the root again.
pub fn replay(tree: &mut [u16], words: &[u64], k: usize)
    requires { (k < LEAVES) × ((o : ℕ → Bool) × Played tree.old words.now o (OnWay k)) }
    ensures { (o : ℕ → Bool) → Played tree.old words.now o (OnWay k)
        → Played tree.new words.now o Nowhere }
{
    let mut i = k;
    while 0 < i {
        tree[i] = cheaper(words, tree[2 * i], tree[2 * i + 1]);
        i = i / 2;
    }
}

// The entry of place p's leaf.
fn leaf_entry(p: usize, is_open: bool) -> u16
    requires { p < MAX_NODES }
    ensures { result ≡ cond is_open (suc p) 0 }
{
    if is_open { node_words::entry_of(p) } else { 0 }
}

// Makes place p open or not, and plays its games again.
pub fn set_leaf(tree: &mut [u16], words: &[u64], p: usize, is_open: bool)
    requires placed { Placed words.now p }
    requires by_index { (o : ℕ → Bool) × Played tree.old words.now o (OnWay ((LEAVES + p) / 2)) }
    ensures { (o : ℕ → Bool) → Played tree.old words.now o (OnWay ((LEAVES + p) / 2))
        → Played tree.new words.now (with_leaf p is_open o) Nowhere }
{
    let leaf = LEAVES + p;
    tree[leaf] = leaf_entry(p, is_open);
    replay(&mut *tree, words, leaf / 2);
}
