// What comes of writing into an area that a caller lends: the length written to the area's start, or a refusal, which leaves the
// area as it was.
#![tactic(auto)]

ghost use Rattle.std.specs.Prelude.{◌≡◌};
ghost use Rattle.outcome.specs.Outcome.{fitted};
ghost use Rattle.outcome.specs.Answers.{answer};

use task::Refusal;
use task::refused::Cause;

// The length of an output, where an area has room for it.
pub fn fitted(bytes: usize, room: usize) -> Result<usize, Refusal>
    ensures { answer result ≡ fitted bytes room }
{
    if room < bytes {
        return Err(Cause::ShortOutput.at(0));
    }
    Ok(bytes)
}
