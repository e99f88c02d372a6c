// The steps of a list that are source steps, written one after the other. What does not fit into the area is dropped, and the answer is
// how many there are.
ghost use Rattle.std.specs.Prelude.{[], ◌∷◌, ◌+◌, ◌^◌, ◌<◌, ◌≤◌, length};
ghost use Rattle.task.specs.Limits.{MAX_STEPS};
ghost use Rattle.text.specs.Area.{Wrote, Filled};
ghost use Rattle.source.specs.Source.{below};

// Writes a step that is below the number of source actions.
fn put_below(out: &mut [u8], at: usize, actions: usize, step: u8) -> usize
    requires { at + 1 < 2 ^ 64 }
    ensures wrote { Wrote out.old at (below actions (step ∷ [])) result out.new }
    ensures upper_bound { result ≤ at + 1 }
{
    if (step as usize) < actions {
        return text::put_byte(&mut *out, at, step);
    }
    at
}

// Writes the source steps of a list.
pub fn put_source(steps: &[u8], actions: usize, out: &mut [u8]) -> usize
    requires { length steps.now ≤ MAX_STEPS }
    ensures { Filled out.old (below actions steps.now) result out.new }
{
    let mut k = 0;
    for step in steps {
        k = put_below(&mut *out, k, actions, *step);
    }
    k
}
