// What is already lost after a beginning of a translated run. The translation itself is not needed: the run is followed on its source.
#![tactic(auto)]

ghost use Rattle.std.specs.Prelude.{◌≡◌};
ghost use Rattle.task.specs.Answers.{as_sizes};
ghost use Rattle.losses.specs.Losses.{Lost};
ghost use Rattle.translation.specs.Measured.{within, measured};
ghost use Rattle.lost.specs.Answered.{given, answered, Claimed};
ghost use Rattle.lost.specs.Answers.{losses_as};

use lost_run::Run;
use task::refused::Cause;
use task::rows::rows_of;
use task::{Refusal, Sizes, limits};
use translation::measures;

// What a list comes to, on a task of these sizes that can be translated.
fn lost_within(file: &[u8], z: Sizes, steps: &[u8]) -> Result<Run, Refusal>
    requires { measured file.now ≡ within (as_sizes z) }
    ensures { losses_as result ≡ answered file.now steps.now }
{
    if limits::MAX_STEPS < steps.len() {
        return Err(Cause::LongPlan.at(0));
    }
    let actions = z.actions + 2 * z.preferences + 1;
    let known = plan::steps_known(actions, steps);
    if known < steps.len() {
        return Err(Cause::Step.at(known as u16));
    }
    Ok(lost_run::run_list(&rows_of(file, z.rows), z.preferences, steps))
}

// The cost so far and the lost weights after a list of translated actions of the task in a file, one byte an action.
pub fn lost(file: &[u8], steps: &[u8]) -> Result<Run, Refusal>
    ensures result_value { losses_as result ≡ answered file.now steps.now }
    ensures claimed { (v : Lost) → losses_as result ≡ given v → Claimed file.now }
{
    let z = measures::measure(file)?;
    lost_within(file, z, steps)
}
