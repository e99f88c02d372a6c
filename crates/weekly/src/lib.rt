// A week of plans in figures.
#![tactic(auto)]

pub mod plans;
mod tally;

ghost use Rattle.std.specs.Prelude.{◌≡◌, true, ◌≤◌};
ghost use Rattle.task.specs.Check.{accepted, check};
ghost use Rattle.task.specs.Answers.{as_sizes};
ghost use Rattle.task.specs.Limits.{MAX_PREFERENCES};
ghost use Rattle.figures.specs.Plans.{readable};
ghost use Rattle.figures.specs.Week.{week_of};
ghost use Rattle.figures.specs.Pass.{no_plans, closed, closing, pass_at, Counting, CountingIn};
ghost use Rattle.figures.specs.Promised.{Promised};
ghost use Rattle.weekly.specs.Answers.{as_tally, pass_as, as_figures, reckoned_as, as_reckoned};

use tally::Totals;
use task::refused::Cause;
use task::{Refusal, Sizes, limits};

// Over the plans that solve, at least one: how many they are, of their metrics the least, the greatest, the sum and the mean as
// quotient and remainder. The task has so many preferences: entry k of `meeting` is how many of the plans meet preference k, and every
// other entry is 0.
#[derive(Clone, Copy)]
pub struct Amounts {
    pub solving: u64,
    pub least: u64,
    pub greatest: u64,
    pub sum: u64,
    pub mean: u64,
    pub remainder: u64,
    pub preferences: usize,
    pub meeting: [u64; limits::MAX_PREFERENCES],
}

// The amounts, from the totals over all plans, where a plan solves.
fn amounts_of(preferences: usize, t: &Totals) -> Option<Amounts>
    requires { (preferences ≤ MAX_PREFERENCES) × Counting preferences (as_tally t.now) }
    ensures { result ≡ as_figures (closed preferences (as_tally t.now)) }
{
    let n = t.solving;
    if n == 0 {
        return None;
    }
    Some(Amounts {
        solving: n,
        least: t.least,
        greatest: t.greatest,
        sum: t.sum,
        mean: t.sum / n,
        remainder: t.sum % n,
        preferences,
        meeting: t.meeting,
    })
}

// Takes in all plans of a file, from the first on: the first that is refused ends the pass.
fn pass(file: &[u8], z: Sizes, plans: &[u8]) -> Result<Totals, Refusal>
    requires { (check file.now ≡ accepted (as_sizes z)) × (readable plans.now ≡ true) }
    ensures passed { closing z.preferences (pass_as result) ≡ pass_at file.now plans.now z.preferences no_plans 0 }
    ensures counting_in { CountingIn z.preferences (pass_as result) }
{
    let n = plans::count(plans);
    let first = 2 + 4 * n;
    let mut t = Totals {
        solving: 0,
        least: 0,
        greatest: 0,
        sum: 0,
        meeting: [0; limits::MAX_PREFERENCES],
    };
    for i in 0..n {
        let e = plans::entry_at(plans, n, i);
        let from = first + e.start;
        let to = from + e.steps;
        tally::take_plan(file, z, i as u16, &plans[from..to], &mut t)?;
    }
    Ok(t)
}

// The amounts of a week's plans on the task in a file, which is checked once: none where no plan solves, or a refusal of the task,
// of the file of plans or of a plan.
pub fn week(file: &[u8], plans: &[u8]) -> Result<Option<Amounts>, Refusal>
    ensures result_value { reckoned_as result ≡ week_of file.now plans.now }
    ensures value { result ≡ as_reckoned (week_of file.now plans.now) }
    ensures promised { Promised file.now plans.now (reckoned_as result) }
{
    let z = task::check(file)?;
    if !plans::is_readable(plans) {
        return Err(Cause::Plans.at(0));
    }
    let t = pass(file, z, plans)?;
    Ok(amounts_of(z.preferences, &t))
}
