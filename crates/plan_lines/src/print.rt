// A plan written as text. What does not fit into the area is dropped, and the answer is the whole text's length.
ghost use Rattle.std.specs.Prelude.{[], ◌∷◌, ◌++◌, ◌+◌, ◌*◌, ◌^◌, ◌<◌, ◌≤◌, length};
ghost use Rattle.task.specs.Limits.{MAX_STEPS};
ghost use Rattle.text.specs.Area.{Wrote, Filled};
ghost use Rattle.plan_lines.specs.PlanText.{step_line, text_of};

// Writes the line of a step. Its pieces are not put_number's, which is too large to be put into its callers.
fn put_step(out: &mut [u8], at: usize, step: u8) -> usize
    requires { at + 30 < 2 ^ 64 }
    ensures wrote { Wrote out.old at (step_line step ++ (10 ∷ [])) result out.new }
    ensures upper_bound { result ≤ at + 7 }
{
    let a = text::put_bytes(&mut *out, at, b"(a");
    let b = text::put_decimal(&mut *out, a, step as u64);
    text::put_bytes(&mut *out, b, b")\n")
}

// Writes a line for each step, of 7 bytes at most.
pub fn put_plan(plan: &[u8], out: &mut [u8]) -> usize
    requires { length plan.now ≤ MAX_STEPS }
    ensures filled { Filled out.old (text_of plan.now) result out.new }
    ensures upper_bound { result ≤ 7 * length plan.now }
{
    let mut k = 0;
    for step in plan {
        k = put_step(&mut *out, k, *step);
    }
    k
}
