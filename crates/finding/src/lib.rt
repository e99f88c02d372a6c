// The search for a cheapest plan of the task in a file, over plain words.
#![tactic(auto)]

mod run;

ghost use Rattle.std.specs.Prelude.{◌≡◌, ℕ, length, Ok};
ghost use Rattle.meaning.specs.Task.{Task};
ghost use Rattle.searching.specs.Limits.{MAX_FOUND};
ghost use Rattle.searching.specs.Search.{explore};
ghost use Rattle.node_words.specs.Words.{LIST_WORDS};
ghost use Rattle.searched.specs.Searched.{searched, search_file};
ghost use Rattle.finding.specs.Finding.{as_searched, as_sought, plan_after, Bounded, Kept, Ending};

use exploring::Ended;
use node_words;
use node_words::limits;
use origins;
use task::Refusal;
use task::refused::Cause;
use task::rows::rows_of;

// How many steps a plan has, and what it costs.
#[derive(Clone, Copy)]
pub struct Route {
    pub steps: usize,
    pub cost: u64,
}

// How a search ended; each has the number of nodes kept.
#[derive(Clone, Copy)]
pub enum Sought {
    Found(Route, usize),
    NoPlan(usize),
    Full(usize),
}

// The answer of a search that has ended, its plan written out.
fn deliver(words: &[u64], e: Ended, plan: &mut [u8]) -> Sought
    requires { (length plan.old ≡ MAX_FOUND) × ((t : Task) × (limit : ℕ) × Ending words.now e t limit) }
    ensures bounded { Bounded (Ok result) }
    ensures result_after { (t : Task) (limit : ℕ) → Ending words.now e t limit
        → (as_searched plan.new words.now (Ok result) ≡ searched (explore t limit))
        × (plan.new ≡ plan_after (searched (explore t limit)).answer plan.old) }
{
    match e {
        Ended::Found(i, n) => {
            let steps = origins::put_plan(words, n, i, &mut *plan);
            let cost = node_words::cost_at(words, i);
            Sought::Found(Route { steps, cost }, n)
        }
        Ended::NoPlan(n) => Sought::NoPlan(n),
        Ended::Full(n) => Sought::Full(n),
    }
}

// Searches the task in a file, for a list with so much room: the nodes kept stand in the words, the plan found in `plan`. What the words
// hold after the nodes is left free, but for a refusal.
pub fn find(
    file: &[u8],
    limit: usize,
    room: usize,
    words: &mut [u64],
    plan: &mut [u8],
) -> Result<Sought, Refusal>
    requires { (length words.old ≡ LIST_WORDS) × (length plan.old ≡ MAX_FOUND) }
    ensures result_after { as_searched plan.new words.new result ≡ search_file file.now limit room }
    ensures value { result ≡ as_sought (search_file file.now limit room) }
    ensures plan_after { plan.new ≡ plan_after (search_file file.now limit room).answer plan.old }
    ensures bounded { Bounded result × Kept result words.old words.new }
{
    let z = task::check(file)?;
    if z.preferences != 0 {
        return Err(Cause::Preferences.at(0));
    }
    if !((1 <= limit) & (limit <= limits::MAX_NODES) & (limit <= room)) {
        return Err(Cause::Limit.at(0));
    }
    let e = run::on_rows(&rows_of(file, z.rows), limit, &mut *words);
    Ok(deliver(&*words, e, &mut *plan))
}
