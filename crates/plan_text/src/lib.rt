// Plans as planners print them: a line for each step.
#![tactic(auto)]

ghost use Rattle.std.specs.Prelude.{◌≡◌, ◌≤◌, length};
ghost use Rattle.plan_lines.specs.PlanText.{text_of};
ghost use Rattle.plan_text.specs.Outcomes.{HasRoom, read_outcome, steps_in, write_outcome, text_walked};
ghost use Rattle.outcome.specs.Outcome.{area_after};
ghost use Rattle.outcome.specs.Answers.{answer};
ghost use Rattle.task.specs.Limits.{MAX_TEXT};
ghost use Rattle.plan.specs.Answers.{walked_as};

use plan::Walked;
use plan_lines::{print, scan};
use task::refused::Cause;
use task::{Refusal, limits};

// A text of at most so many bytes is read by way of a small area: an area costs what it is long.
const FEW: usize = 64;

// Reads a text by way of an area of our own, which has room for every plan that the text may hold.
fn read_through(text: &[u8], own: &mut [u8], out: &mut [u8]) -> Result<usize, Refusal>
    requires { (length text.now ≤ MAX_TEXT) × HasRoom (length text.now) (length own.old) }
    ensures result_value { answer result ≡ read_outcome text.now (length out.old) }
    ensures out_after { let outcome = read_outcome text.now (length out.old) in
        out.new ≡ area_after (steps_in text.now) out.old outcome }
{
    let s = scan::fill(text, &mut *own);
    if !scan::between_lines(s) {
        return Err(Cause::Text.at(s.line as u16));
    }
    if limits::MAX_STEPS < s.steps {
        return Err(Cause::LongPlan.at(0));
    }
    let n = outcome::fitted(s.steps, out.len())?;
    text::put_bytes(&mut *out, 0, text::front(&*own, n));
    Ok(n)
}

// Reads a text into a plan, one byte a step, at the start of the area.
pub fn read(text: &[u8], out: &mut [u8]) -> Result<usize, Refusal>
    ensures result_value { answer result ≡ read_outcome text.now (length out.old) }
    ensures out_after { let outcome = read_outcome text.now (length out.old) in
        out.new ≡ area_after (steps_in text.now) out.old outcome }
{
    if limits::MAX_TEXT < text.len() {
        return Err(Cause::Text.at(0));
    }
    if text.len() <= FEW {
        let mut few: [u8; FEW] = [0; FEW];
        return read_through(text, &mut few, &mut *out);
    }
    let mut steps: [u8; limits::MAX_STEPS] = [0; limits::MAX_STEPS];
    read_through(text, &mut steps, &mut *out)
}

// Writes a plan as text at the start of the area. It is counted first where the area is not long enough for every plan of as many steps.
pub fn write(plan: &[u8], out: &mut [u8]) -> Result<usize, Refusal>
    ensures result_value { answer result ≡ write_outcome plan.now (length out.old) }
    ensures out_after { let outcome = write_outcome plan.now (length out.old) in
        out.new ≡ area_after (text_of plan.now) out.old outcome }
{
    if limits::MAX_STEPS < plan.len() {
        return Err(Cause::LongPlan.at(0));
    }
    if 7 * plan.len() <= out.len() {
        return Ok(print::put_plan(plan, &mut *out));
    }
    let mut nothing: [u8; 1] = [0; 1];
    outcome::fitted(print::put_plan(plan, &mut nothing), out.len())?;
    Ok(print::put_plan(plan, &mut *out))
}

// Walks the plan in a text on the task in a file. A refusal of the file comes before one of the text.
pub fn walk_text(file: &[u8], text: &[u8]) -> Result<Walked, Refusal>
    ensures { walked_as result ≡ text_walked file.now text.now }
{
    let mut steps: [u8; limits::MAX_STEPS] = [0; limits::MAX_STEPS];
    match read(text, &mut steps) {
        Ok(n) => plan::walk(file, text::front(&steps, n)),
        Err(f) => {
            task::check(file)?;
            Err(f)
        }
    }
}
