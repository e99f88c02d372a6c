// Effects rewritten with single literals (request 12), and the file that they are written to.
#![tactic(auto)]

mod choosing;
mod shapes;
mod whole;
mod wide;

ghost use Rattle.std.specs.Prelude.{◌≡◌, ℕ, length};
ghost use Rattle.outcome.specs.Outcome.{written, area_after};
ghost use Rattle.outcome.specs.Answers.{answer};
ghost use Rattle.singling.specs.Singled.{singled_file};
ghost use Rattle.singling.specs.Outcome.{outcome};
ghost use Rattle.single_effects.specs.Claim.{Delivered};

use task::Refusal;
use task::rows::rows_of;

// Rewrites the effects of the task in a file into the area: one effect for each choice of a literal from every clause.
pub fn single(file: &[u8], out: &mut [u8]) -> Result<usize, Refusal>
    ensures result_value { answer result ≡ outcome file.now (length out.old) }
    ensures out_after { let answered = outcome file.now (length out.old) in
        out.new ≡ area_after (singled_file file.now) out.old answered }
    ensures by_index { (n : ℕ) → answer result ≡ written n → Delivered file.now out.new n }
{
    let z = task::check(file)?;
    let rows = rows_of(file, z.rows);
    let last = wide::find_wide(rows.marks)?;
    whole::put_file(out, &rows, z, last)
}
