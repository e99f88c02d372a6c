// A list of nodes that a caller lends.
#![tactic(auto)]

ghost use Rattle.std.specs.Prelude.{◌≡◌, ◌++◌, ◌<◌, ◌≤◌, length, set, drop};
ghost use Rattle.node_words.specs.Words.{RoomFor, Placed};
ghost use Rattle.nodes.specs.Nodes.{node_at, node_read, up_to};

use node_words;
use state::State;

// A state that the search has found: what its cheapest way costs, the place that it was found from, and the action that led to it.
#[derive(Clone, Copy)]
pub struct Node {
    pub state: State,
    pub cost: u64,
    pub origin: u16,
    pub action: u8,
}

// How many nodes the list has room for.
pub fn room(nodes: &[Node]) -> usize
    ensures { result ≡ length nodes.now }
{
    nodes.len()
}

// The node at place i.
pub fn node_at(nodes: &[Node], i: usize) -> Node
    requires { i < length nodes.now }
    ensures { result ≡ node_at nodes.now i }
{
    nodes[i]
}

// The node at place i is n, and the others are as they were.
pub fn put_node(nodes: &mut [Node], i: usize, n: Node)
    requires { i < length nodes.old }
    ensures { nodes.new ≡ set nodes.old i n }
{
    nodes[i] = n;
}

// The node whose words stand at place i.
pub fn node_of(i: usize, words: &[u64]) -> Node
    requires { Placed words.now i }
    ensures { result ≡ node_read words.now i }
{
    let x = node_words::node_at(words, i);
    Node {
        state: x.state(),
        cost: x.cost,
        origin: (x.origin() % 65536) as u16,
        action: x.action(),
    }
}

// The first n nodes come from their words, and the others are as they were.
pub fn fill(nodes: &mut [Node], n: usize, words: &[u64])
    requires { (n ≤ length nodes.old) × RoomFor words.now n }
    ensures { nodes.new ≡ up_to (node_read words.now) n ++ drop n nodes.old }
{
    for i in 0..n {
        nodes[i] = node_of(i, words);
    }
}
