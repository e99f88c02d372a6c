// The source part of what a planner prints for a translation.
#![tactic(auto)]

mod parts;

ghost use Rattle.std.specs.Prelude.{◌≡◌, ℕ, ◌+◌, ◌*◌, ◌≤◌, length};
ghost use Rattle.task.specs.Answers.{as_sizes};
ghost use Rattle.task.specs.Limits.{MAX_ACTIONS, MAX_STEPS};
ghost use Rattle.outcome.specs.Outcome.{written, area_after};
ghost use Rattle.outcome.specs.Answers.{answer};
ghost use Rattle.plan_lines.specs.PlanText.{read_plan};
ghost use Rattle.plan_text.specs.Outcomes.{steps_in};
ghost use Rattle.source.specs.Source.{below, of_known, of_text, outcome, part_in, Returned};

use task::refused::Cause;
use task::{Refusal, Sizes, limits};
use translation::measures;

// Writes the source steps of a list of translated actions at the start of the area.
fn put_known(z: Sizes, steps: &[u8], out: &mut [u8]) -> Result<usize, Refusal>
    requires { (length steps.now ≤ MAX_STEPS) × (z.actions + 2 * z.preferences + 1 ≤ MAX_ACTIONS) }
    ensures result_value { answer result ≡ of_known (as_sizes z) (length out.old) steps.now }
    ensures out_after { let answered = of_known (as_sizes z) (length out.old) steps.now in
        out.new ≡ area_after (below z.actions steps.now) out.old answered }
{
    let actions = z.actions + 2 * z.preferences + 1;
    let known = plan::steps_known(actions, steps);
    if known < steps.len() {
        return Err(Cause::Step.at(known as u16));
    }
    let mut nothing: [u8; 1] = [0; 1];
    outcome::fitted(parts::put_source(steps, z.actions, &mut nothing), out.len())?;
    Ok(parts::put_source(steps, z.actions, &mut *out))
}

// Reads a planner's text, and writes the source steps in it at the start of the area.
fn put_text(z: Sizes, text: &[u8], out: &mut [u8]) -> Result<usize, Refusal>
    requires { z.actions + 2 * z.preferences + 1 ≤ MAX_ACTIONS }
    ensures result_value { answer result ≡ of_text (as_sizes z) (length out.old) (read_plan text.now) }
    ensures out_after { let answered = of_text (as_sizes z) (length out.old) (read_plan text.now) in
        out.new ≡ area_after (below z.actions (steps_in text.now)) out.old answered }
{
    let mut steps: [u8; limits::MAX_STEPS] = [0; limits::MAX_STEPS];
    let n = plan_text::read(text, &mut steps)?;
    put_known(z, text::front(&steps, n), &mut *out)
}

// The source part of what a planner prints for the translation of the task in a file, one byte a step, at the start of the area.
pub fn source(file: &[u8], text: &[u8], out: &mut [u8]) -> Result<usize, Refusal>
    ensures result_value { answer result ≡ outcome file.now text.now (length out.old) }
    ensures out_after { let answered = outcome file.now text.now (length out.old) in
        out.new ≡ area_after (part_in file.now text.now) out.old answered }
    ensures by_index { (m : ℕ) → answer result ≡ written m → Returned file.now text.now out.new m }
{
    let z = measures::measure(file)?;
    put_text(z, text, &mut *out)
}
