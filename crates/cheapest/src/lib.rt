// A cheapest plan for the task in a file, and the nodes that the search for it kept, in a lent list.
#![tactic(auto)]

pub mod plain;

ghost use Rattle.std.specs.Prelude.{◌≡◌, length};
ghost use Rattle.searched.specs.Searched.{search_file, Lent};
ghost use Rattle.searched.specs.Claim.{Claim};
ghost use Rattle.nodes.specs.Nodes.{as_node};
ghost use Rattle.cheapest.specs.Kept.{answer, by_value, KeptAs};

use finding::Sought;
use node_words::limits;
use nodes;
use nodes::Node;
use task::Refusal;

// What the search comes to, and the steps of a plan found, as many as that says. The array is 0 after them, and all of it where none is
// found.
#[derive(Clone, Copy)]
pub struct Searched {
    pub sought: Result<Sought, Refusal>,
    pub steps: [u8; limits::MAX_FOUND],
}

// With the words of the nodes kept.
#[derive(Clone, Copy)]
struct Kept {
    pub searched: Searched,
    pub nodes: usize,
    pub words: [u64; limits::LIST_WORDS],
}

// Searches over words of its own, for a list with so much room.
fn searched_words(file: &[u8], limit: usize, room: usize) -> Kept
    ensures { KeptAs file.now limit room result }
{
    let mut words: [u64; limits::LIST_WORDS] = [0; limits::LIST_WORDS];
    let mut steps: [u8; limits::MAX_FOUND] = [0; limits::MAX_FOUND];
    let sought = finding::find(file, limit, room, &mut words, &mut steps);
    let nodes = plain::nodes_in(sought);
    let searched = Searched { sought, steps };
    Kept {
        searched,
        nodes,
        words,
    }
}

// Searches the task in a file, keeping at most so many nodes. The list then begins with the nodes kept; a refusal leaves it as it was.
pub fn search(file: &[u8], limit: usize, nodes: &mut [Node]) -> Searched
    ensures { (result ≡ by_value (search_file file.now limit (length nodes.old)))
        × (answer result ≡ (search_file file.now limit (length nodes.old)).answer)
        × Lent as_node (search_file file.now limit (length nodes.old)).kept nodes.old nodes.new
        × Claim file.now limit (answer result) }
{
    let k = searched_words(file, limit, nodes.len());
    let words = k.words;
    nodes::fill(nodes, k.nodes, &words);
    k.searched
}
