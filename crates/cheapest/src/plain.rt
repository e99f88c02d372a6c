// The search over a lent list of words, four for each node.
ghost use Rattle.std.specs.Prelude.{◌≡◌, ◌++◌, ◌≤◌, ◌/◌, length, get_or, drop};
ghost use Rattle.searching.specs.Limits.{MAX_FOUND};
ghost use Rattle.searched.specs.Searched.{search_file};
ghost use Rattle.searched.specs.Claim.{Claim};
ghost use Rattle.nodes.specs.Nodes.{up_to};
ghost use Rattle.finding.specs.Finding.{as_searched, as_sought, plan_after, Bounded};
ghost use Rattle.cheapest.specs.LentWords.{nodes_in, LentWords};

use finding::Sought;
use node_words::limits;
use task::Refusal;

// How many nodes are kept; none after any refusal.
pub fn nodes_in<E: Drop>(sought: Result<Sought, E>) -> usize
    ensures { result ≡ nodes_in sought }
{
    match sought {
        Ok(Sought::Found(_, n)) => n,
        Ok(Sought::NoPlan(n)) => n,
        Ok(Sought::Full(n)) => n,
        Err(_) => 0,
    }
}

// Copies the first n words to the start of a list.
fn copy_words(words: &[u64], n: usize, out: &mut [u64])
    requires { (n ≤ length words.now) × (n ≤ length out.old) }
    ensures { out.new ≡ up_to (λ i. get_or words.now i 0) n ++ drop n out.old }
{
    out[..n].copy_from_slice(&words[..n]);
}

// Searches the task in a file, keeping at most so many nodes. The list then begins with the nodes kept, and the area with the plan found;
// a refusal leaves both as they were.
pub fn search(
    file: &[u8],
    limit: usize,
    nodes: &mut [u64],
    plan: &mut [u8; limits::MAX_FOUND],
) -> Result<Sought, Refusal>
    ensures result_after { as_searched plan.new nodes.new result ≡ search_file file.now limit (length nodes.old / 4) }
    ensures value { result ≡ as_sought (search_file file.now limit (length nodes.old / 4)) }
    ensures lent_words { LentWords (search_file file.now limit (length nodes.old / 4)).kept nodes.old nodes.new }
    ensures plan_after { plan.new ≡ plan_after (search_file file.now limit (length nodes.old / 4)).answer plan.old }
    ensures claim { Claim file.now limit (search_file file.now limit (length nodes.old / 4)).answer }
    ensures bounded { Bounded result × (length plan.new ≡ MAX_FOUND) }
{
    let mut words: [u64; limits::LIST_WORDS] = [0; limits::LIST_WORDS];
    let sought = finding::find(file, limit, nodes.len() / 4, &mut words, plan);
    let n = nodes_in(sought);
    copy_words(&words, 4 * n, nodes);
    sought
}
