// Whether a task can be translated, and what its translation measures, with no area to translate it into.
ghost use Rattle.std.specs.Prelude.{◌≡◌, ◌≤◌, IfOk};
ghost use Rattle.task.specs.Answers.{as_sizes};
ghost use Rattle.task.specs.Limits.{MAX_ACTIONS, MAX_FACTS, MAX_PREFERENCES};
ghost use Rattle.translation.specs.Translated.{small_enough};
ghost use Rattle.translation.specs.Measured.{measured, measured_as, sizes_in, Taken};

use task::refused::Cause;
use task::rows::rows_of;
use task::{Refusal, Sizes, limits};
use translated_rows::places::Places;
use translated_rows::{further, places};

// The sizes of a task that can be translated, where its parts stand, how many facts D1, D2 and so on its preferences have, and
// how many rows its translation has.
#[derive(Clone, Copy)]
pub(crate) struct Measures {
    pub sizes: Sizes,
    pub places: Places,
    pub further: u32,
    pub rows: usize,
}

// Whether the translation's facts and actions are few enough, so many of the facts being D1, D2 and so on.
fn small_enough(z: Sizes, further: u32) -> bool
    requires { (z.facts ≤ MAX_FACTS) × (z.actions ≤ MAX_ACTIONS) × (z.preferences ≤ MAX_PREFERENCES) }
    ensures { result ≡ small_enough (as_sizes z) further }
{
    (z.facts + 3 * z.preferences + 2 + (further as usize) <= limits::MAX_FACTS)
        & (z.actions + 2 * z.preferences + 1 <= limits::MAX_ACTIONS)
}

// Measures the task in a file, or says what translating it is refused by, an area that is too short apart.
pub(crate) fn take(file: &[u8]) -> Result<Measures, Refusal>
    ensures result_value { measured_as (sizes_in result) ≡ measured file.now }
    ensures ok { IfOk result (Taken file.now) }
{
    let sizes = task::check(file)?;
    let rows = rows_of(file, sizes.rows);
    let places = places::find(rows.marks);
    let further = further::count(&rows, places.to);
    if !small_enough(sizes, further) {
        return Err(Cause::TooMany.at(0));
    }
    let rows = translated_rows::count_rows(&rows, places, sizes);
    if limits::MAX_ROWS < rows {
        return Err(Cause::TranslationRows.at(0));
    }
    Ok(Measures {
        sizes,
        places,
        further,
        rows,
    })
}

// The sizes of the task in a file that can be translated, or what translating it is refused by, an area that is too short apart.
pub fn measure(file: &[u8]) -> Result<Sizes, Refusal>
    ensures { measured_as result ≡ measured file.now }
{
    Ok(take(file)?.sizes)
}
