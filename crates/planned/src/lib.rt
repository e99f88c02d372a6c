// A cheapest plan for the task in a file, as text.
#![tactic(auto)]

ghost use Rattle.std.specs.Prelude.{◌≡◌, ◌≤◌, length};
ghost use Rattle.text.specs.Area.{Filled};
ghost use Rattle.searching.specs.Limits.{MAX_NODES, MAX_FOUND};
ghost use Rattle.searched.specs.Searched.{search_file};
ghost use Rattle.planned.specs.Planned.{planned_text, outcome_of, area_after, as_outcome};

use finding::Sought;
use node_words::limits;
use plan_lines::print;
use task::Refusal;

// The length of the text, or how the search ended without one.
#[derive(Clone, Copy)]
pub enum Planned {
    Written(usize),
    NoPlan,
    Full,
}

// Writes a plan, and its cost in a comment. What does not fit into the area is dropped, and the answer is the whole text's length.
fn put(plan: &[u8], cost: u64, out: &mut [u8]) -> usize
    requires { length plan.now ≤ MAX_FOUND }
    ensures { Filled out.old (planned_text plan.now cost) result out.new }
{
    let k = print::put_plan(plan, &mut *out);
    text::put_number(&mut *out, k, b"; cost = ", cost, b"\n")
}

// Searches the task in a file, keeping as many nodes as a search may, and writes the plan found.
pub fn write(file: &[u8], out: &mut [u8]) -> Result<Planned, Refusal>
    ensures result_value { as_outcome result ≡ outcome_of (search_file file.now MAX_NODES MAX_NODES).answer }
    ensures out_after { out.new ≡ area_after (search_file file.now MAX_NODES MAX_NODES).answer out.old }
{
    let mut words: [u64; limits::LIST_WORDS] = [0; limits::LIST_WORDS];
    let mut steps: [u8; limits::MAX_FOUND] = [0; limits::MAX_FOUND];
    let most = limits::MAX_NODES;
    let s = finding::find(file, most, most, &mut words, &mut steps)?;
    Ok(match s {
        Sought::Found(route, _) => Planned::Written(put(
            text::front(&steps, route.steps),
            route.cost,
            &mut *out,
        )),
        Sought::NoPlan(_) => Planned::NoPlan,
        Sought::Full(_) => Planned::Full,
    })
}
