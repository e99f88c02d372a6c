// The plan that leads to a node, read from the origins.
#![tactic(auto)]

ghost use Rattle.std.specs.Prelude.{◌≡◌, ◌++◌, ◌≤◌, length, drop};
ghost use Rattle.searching.specs.Search.{plan_to};
ghost use Rattle.node_words.specs.Words.{nodes_of};
ghost use Rattle.origins.specs.Origins.{PlaceIn};

use node_words;

// How many steps lead to a place of n nodes.
fn count_steps(words: &[u64], n: usize, place: usize) -> usize
    requires { PlaceIn words.now n place }
    ensures { result ≡ length (plan_to (nodes_of words.now n) place) }
{
    let mut i = place;
    for d in 0..n {
        if i == 0 {
            return d;
        }
        i = node_words::node_at(words, i).origin();
    }
    n
}

// Writes the steps that lead to a place of n nodes, from the last one back.
fn put_steps(words: &[u64], n: usize, place: usize, steps: usize, plan: &mut [u8])
    requires place_in { PlaceIn words.now n place }
    requires steps_value { (steps ≡ length (plan_to (nodes_of words.now n) place)) × (steps ≤ length plan.old) }
    ensures { plan.new ≡ plan_to (nodes_of words.now n) place ++ drop steps plan.old }
{
    let mut i = place;
    for k in (0..steps).rev() {
        let x = node_words::node_at(words, i);
        plan[k] = x.action();
        i = x.origin();
    }
}

// Writes the plan that leads to a place of n nodes, and answers how many steps it has.
pub fn put_plan(words: &[u64], n: usize, place: usize, plan: &mut [u8]) -> usize
    requires place_in { PlaceIn words.now n place }
    requires place_in_bounds { length (plan_to (nodes_of words.now n) place) ≤ length plan.old }
    ensures value { result ≡ length (plan_to (nodes_of words.now n) place) }
    ensures plan_after { plan.new ≡ plan_to (nodes_of words.now n) place ++ drop result plan.old }
{
    let steps = count_steps(words, n, place);
    put_steps(words, n, place, steps, &mut *plan);
    steps
}
