// Effects with too many choices.
ghost use Rattle.std.specs.Prelude.{◌≡◌, List, true, ℕ, ◌+◌, ◌≤◌, length, IfOk, IfErr};
ghost use Rattle.meaning.specs.Task.{Task};
ghost use Rattle.task.specs.TaskRows.{task_rows};
ghost use Rattle.task.specs.File.{paired};
ghost use Rattle.task.specs.Answers.{number_of};
ghost use Rattle.task.specs.Refused.{CHOICES};
ghost use Rattle.task.specs.Limits.{MAX_ROWS};
ghost use Rattle.task.specs.Rows.{MarksTo};
ghost use Rattle.singling.specs.Wide.{first_wide};
ghost use Rattle.single_effects.specs.Whole.{place_in, NoEffects};

use super::shapes;
use task::refused::Cause;
use task::{Refusal, limits, marks};

// Whether none of four rows from row i on opens an effect.
fn four_others(marks: &[u8], i: usize) -> bool
    requires { MarksTo (i + 4) marks.now }
    ensures { result ≡ true → NoEffects marks.now i (i + 4) }
{
    (marks[i] != marks::EFFECT)
        & (marks[i + 1] != marks::EFFECT)
        & (marks[i + 2] != marks::EFFECT)
        & (marks[i + 3] != marks::EFFECT)
}

// Passes rows that open no effect, eight at a time.
fn past_others(marks: &[u8], from: usize) -> usize
    requires { MarksTo from marks.now }
    ensures lower_bound { (from ≤ result) × (result ≤ length marks.now) }
    ensures no_effects { NoEffects marks.now from result }
{
    let mut i = from;
    while i + 8 <= marks.len() {
        if !(four_others(marks, i) & four_others(marks, i + 4)) {
            return i;
        }
        i += 8;
    }
    i
}

// Goes through the effects, and answers the row after the last one. The first that has too many choices is refused.
pub fn find_wide(marks: &[u8]) -> Result<usize, Refusal>
    requires { length marks.now ≤ MAX_ROWS }
    ensures last_in_bounds { IfOk result (λ last. (last ≤ length marks.now) × NoEffects marks.now last (length marks.now)) }
    ensures for_choices { IfErr result (λ r. number_of r.cause ≡ CHOICES) }
    ensures by_index { (vs : List ℕ) (t : Task) → paired marks.now vs ≡ task_rows t
        → place_in result ≡ first_wide 0 (task_rows t) }
{
    let mut last = 0;
    let mut i = 0;
    while i < marks.len() {
        if marks[i] == marks::EFFECT {
            let s = shapes::shape_of(marks, i);
            if limits::MAX_CHOICES < s.choices {
                return Err(Cause::Choices.at(i as u16));
            }
            i = s.changes.to;
            last = i;
        } else {
            i = past_others(marks, i + 1);
        }
    }
    Ok(last)
}
