// What a solution is worth on a task: metric and utility, from its cost and the preferences that it meets.
#![tactic(auto)]

mod amounts;

ghost use Rattle.std.specs.Prelude.{◌≡◌};
ghost use Rattle.task.specs.Check.{accepted, check};
ghost use Rattle.task.specs.Answers.{as_sizes};
ghost use Rattle.state.specs.Member.{bit};
ghost use Rattle.settling.specs.Settled.{settled};
ghost use Rattle.settling.specs.Answers.{settled_as};

use state::State;
use task::refused::Cause;
use task::rows::rows_of;
use task::{Refusal, Sizes};

// What a solution is worth.
#[derive(Clone, Copy)]
pub struct Worth {
    pub metric: u64,
    pub utility: i64,
}

// Whether preference k is among the met ones.
pub fn is_met(met: u64, k: u32) -> bool
    ensures { result ≡ bit met k }
{
    state::holds(State { low: met, high: 0 }, k)
}

// What a cost and met preferences are worth on the task in a file that check has accepted, of sizes z, or a refusal of either.
pub fn settle_on(file: &[u8], z: Sizes, cost: u64, met: u64) -> Result<Worth, Refusal>
    requires { check file.now ≡ accepted (as_sizes z) }
    ensures { settled_as result ≡ settled file.now cost (bit met) }
{
    if !amounts::arguments_allowed(z.preferences, cost, met) {
        return Err(Cause::Argument.at(0));
    }
    Ok(amounts::worth(cost, amounts::weigh(&rows_of(file, z.rows), met)))
}

// What a cost and met preferences are worth on the task in a file; preference k is met where bit k of `met` is set.
pub fn settle(file: &[u8], cost: u64, met: u64) -> Result<Worth, Refusal>
    ensures { settled_as result ≡ settled file.now cost (bit met) }
{
    // Document 01 names let .. else, and not ?, as the form of this place.
    let checked = task::check(file);
    let Ok(z) = checked else {
        return Err(checked.unwrap_err());
    };
    settle_on(file, z, cost, met)
}
