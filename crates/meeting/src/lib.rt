// A node that the search meets: the entry of its state is lowered, or it is a new one.
#![tactic(auto)]

ghost use Rattle.std.specs.Prelude.{◌≡◌, Bool, true, false, ℕ, suc, ◌≤◌, ◌<◌, set, IfSome};
ghost use Rattle.searching.specs.Limits.{MAX_NODES};
ghost use Rattle.node_words.specs.Words.{Written};
ghost use Rattle.state_table.specs.Table.{SLOTS};
ghost use Rattle.tournament.specs.Tournament.{Nowhere, Played, with_leaf};
ghost use Rattle.meeting.specs.Meeting.{nodes_in, wanted, Lowered, PlayedOut, Held, MetAs};

use node_words;
use node_words::Packed;
use state_table;
use tournament;

// Where the nodes are found: by their states, and the open ones by their costs.
#[derive(Drop)]
pub struct Index {
    pub table: [u16; state_table::SLOTS],
    pub tree: [u16; tournament::ENTRIES],
}

// A further way to the state of the node at place p: put in where it costs less.
fn lower(words: &mut [u64], tree: &mut [u16], p: usize, x: Packed)
    requires { (p < MAX_NODES) × PlayedOut words.old tree.old }
    ensures lowered { Lowered words.old words.new p x }
    ensures by_index { (o : ℕ → Bool) → Played tree.old words.old o Nowhere
        → Played tree.new words.new o Nowhere }
{
    if x.cost < node_words::cost_at(&*words, p) {
        node_words::put_node(&mut *words, p, x);
        tournament::replay(&mut *tree, &*words, (tournament::LEAVES + p) / 2);
    }
}

// A new node at place n, whose slot is empty.
fn add(words: &mut [u64], index: &mut Index, slot: usize, n: usize, x: Packed)
    requires { (n < MAX_NODES) × (slot < SLOTS) × PlayedOut words.old index.old.tree }
    ensures written { Written words.old words.new n x × (index.new.table ≡ set index.old.table slot (suc n)) }
    ensures by_index { (o : ℕ → Bool) → Played index.old.tree words.old o Nowhere
        → Played index.new.tree words.new (with_leaf n true o) Nowhere }
{
    node_words::put_node(&mut *words, n, x);
    index.table[slot] = node_words::entry_of(n);
    tournament::set_leaf(&mut index.tree, &*words, n, true);
}

// A node is met: how many there are then, or none where a new one has no room.
pub fn meet(
    words: &mut [u64],
    index: &mut Index,
    n: usize,
    limit: usize,
    x: Packed,
) -> Option<usize>
    requires { (n ≤ limit) × (limit ≤ MAX_NODES)
        × ((taken : ℕ → Bool) × Held (nodes_in words.old index.old.table index.old.tree n taken)) }
    ensures met { let before = nodes_in words.old index.old.table index.old.tree n in
        let after = nodes_in words.new index.new.table index.new.tree (wanted limit result) in
        ((taken : ℕ → Bool) → Held (before taken) → taken n ≡ false → MetAs (before taken) (after taken) limit x) }
    ensures within { IfSome result (λ m. m ≤ limit) }
{
    let slot = state_table::probe(&index.table, &*words, x.state());
    if let Some(p) = node_words::place_of(index.table[slot]) {
        lower(&mut *words, &mut index.tree, p, x);
        return Some(n);
    }
    if n == limit {
        return None;
    }
    add(&mut *words, &mut *index, slot, n, x);
    Some(n + 1)
}
