// A plan walked on a task.
#![tactic(auto)]

pub mod steps;

ghost use Rattle.std.specs.Prelude.{◌≡◌};
ghost use Rattle.task.specs.Check.{accepted, check};
ghost use Rattle.task.specs.Answers.{as_sizes};
ghost use Rattle.plan.specs.Answers.{walked_as};
ghost use Rattle.plan.specs.Judged.{steps_known};
ghost use Rattle.plan.specs.Walked.{walked};

use task::refused::Cause;
use task::rows::rows_of;
use task::{Refusal, Sizes, limits};

// What a plan that solves costs, and which preferences it meets: preference k where bit k of `met` is set.
#[derive(Clone, Copy)]
pub struct Solution {
    pub cost: u64,
    pub met: u64,
}

// Stopped has the first step that doesn't apply, RuleMissed the lowest hard preference that is missed.
#[derive(Clone, Copy)]
pub enum Verdict {
    Solved(Solution),
    Stopped(usize),
    GoalMissed,
    RuleMissed(u32),
}

// A walked plan: the verdict, and how many literals were looked at.
#[derive(Clone, Copy)]
pub struct Walked {
    pub verdict: Verdict,
    pub looked: u64,
}

// How many steps stand before the first that is not below the number of actions.
pub fn steps_known(actions: usize, plan: &[u8]) -> usize
    ensures { result ≡ steps_known actions plan.now }
{
    for i in 0..plan.len() {
        if actions <= steps::step_index(plan[i]) {
            return i;
        }
    }
    plan.len()
}

// Walks a plan on the task in a file that check has accepted, of sizes z, or refuses the plan.
pub fn walk_on(file: &[u8], z: Sizes, plan: &[u8]) -> Result<Walked, Refusal>
    requires { check file.now ≡ accepted (as_sizes z) }
    ensures { walked_as result ≡ walked file.now plan.now }
{
    if limits::MAX_STEPS < plan.len() {
        return Err(Cause::LongPlan.at(0));
    }
    let known = steps_known(z.actions, plan);
    if known < plan.len() {
        return Err(Cause::Step.at(known as u16));
    }
    Ok(steps::run(&rows_of(file, z.rows), plan))
}

// Walks a plan on the task in a file: the verdict, of a plan that solves the cost and the met preferences, and how many literals
// were looked at.
pub fn walk(file: &[u8], plan: &[u8]) -> Result<Walked, Refusal>
    ensures { walked_as result ≡ walked file.now plan.now }
{
    // Document 01 names let .. else, and not ?, as the form of this place.
    let checked = task::check(file);
    let Ok(z) = checked else {
        return Err(checked.unwrap_err());
    };
    walk_on(file, z, plan)
}
