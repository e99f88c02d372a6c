// The one spelling of a task, and the file that it is written to.
#![tactic(auto)]

mod rising;
mod runs;
mod whole;

ghost use Rattle.std.specs.Prelude.{◌≡◌, length};
ghost use Rattle.outcome.specs.Outcome.{area_after};
ghost use Rattle.outcome.specs.Answers.{answer};
ghost use Rattle.canonical.specs.Canonical.{respelled};
ghost use Rattle.spelling.specs.Outcome.{outcome};

use task::Refusal;
use task::rows::rows_of;

// Writes the one spelling of the task in a file into the area.
pub fn spell(file: &[u8], out: &mut [u8]) -> Result<usize, Refusal>
    ensures result_value { answer result ≡ outcome file.now (length out.old) }
    ensures out_after { let answered = outcome file.now (length out.old) in
        out.new ≡ area_after (respelled file.now) out.old answered }
{
    let z = task::check(file)?;
    whole::put_file(out, &rows_of(file, z.rows), z)
}
