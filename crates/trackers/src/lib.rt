// The effects that follow the preferences from state to state, as rows.
#![tactic(auto)]

ghost use Rattle.std.specs.Prelude.{◌≡◌, ◌≤◌, ◌<◌, length};
ghost use Rattle.task.specs.Rows.{steps_at};
ghost use Rattle.task.specs.Answers.{as_kind};
ghost use Rattle.classical.specs.Translation.{further_facts};
ghost use Rattle.task.specs.Limits.{MAX_DEADLINE};
ghost use Rattle.writer.specs.Writer.{Room, Wrote};
ghost use Rattle.kind_trackers.specs.Rows.{SidesInside, Small};
ghost use Rattle.trackers.specs.Trackers.{Noted, trackers_with, trackers_at, further_at, trackers_by};

use kind_trackers::{Facts, deadlines, kinds};
use layout::sides;
use layout::sides::Sides;
use task::kinds::Kind;
use task::marks;
use task::rows::Rows;
use writer::Cursor;

// The steps of the preference at row `at`, where its kind has them.
fn steps_of(rows: &Rows, at: usize) -> u32
    requires { at < length rows.now.marks.now }
    ensures { (result ≡ steps_at rows.now.marks.now rows.now.values.now at) × (result ≤ MAX_DEADLINE) }
{
    u32::from(rows.steps(at))
}

// The trackers of the preference at row `at`, by its mark; `last` says that they stand in end.
fn trackers_of(
    out: &mut [u8],
    c: Cursor,
    rows: &Rows,
    at: usize,
    p: Sides,
    f: Facts,
    last: bool,
) -> Cursor
    requires { Room c out.old × (at < length rows.now.marks.now) × SidesInside rows.now.marks.now p × Small f }
    ensures { Wrote out.old c (trackers_with rows.now.marks.now rows.now.values.now at p f last) result out.new }
{
    let mark = task::soft_mark(rows.marks[at]);
    match mark {
        marks::ALWAYS => kinds::always(&mut *out, c, rows, p, f),
        marks::SOMETIME..=marks::AT_END => {
            let wanted = (mark == marks::SOMETIME) | last;
            kinds::reached(&mut *out, c, rows, p, f, wanted)
        }
        marks::AT_MOST_ONCE => kinds::at_most_once(&mut *out, c, rows, p, f),
        marks::SOMETIME_BEFORE => kinds::sometime_before(&mut *out, c, rows, p, f),
        marks::SOMETIME_AFTER => kinds::sometime_after(&mut *out, c, rows, p, f),
        marks::WITHIN => {
            let steps = steps_of(rows, at);
            deadlines::within(&mut *out, c, rows, p, f, steps)
        }
        marks::ALWAYS_WITHIN => {
            let steps = steps_of(rows, at);
            deadlines::always_within(&mut *out, c, rows, p, f, steps)
        }
        _ => c,
    }
}

// The trackers of the preference at row `at`. at-end has none but in end, and its rows are not gone through.
fn trackers_at(out: &mut [u8], c: Cursor, rows: &Rows, at: usize, f: Facts, last: bool) -> Cursor
    requires { Room c out.old × Small f }
    ensures { Wrote out.old c (trackers_at rows.now.marks.now rows.now.values.now at f last) result out.new }
{
    if rows.marks.len() <= at {
        return c;
    }
    let mark = task::soft_mark(rows.marks[at]);
    if (mark == marks::AT_END) & !last {
        return c;
    }
    let p = sides::locate(rows.marks, at);
    trackers_of(&mut *out, c, rows, at, p, f, last)
}

// How many facts D1, D2 and so on a preference has.
fn further(kind: Kind) -> u32
    ensures { (result ≡ further_facts (as_kind kind)) × (result ≤ 256) }
{
    match kind {
        Kind::Within(steps) => u32::from(steps) + 1,
        Kind::AlwaysWithin(steps) => u32::from(steps),
        _ => 0,
    }
}

// How many the preference at row `at` has.
fn further_at(rows: &Rows, at: usize) -> u32
    ensures { (result ≡ further_at rows.now.marks.now rows.now.values.now at) × (result ≤ 256) }
{
    if rows.marks.len() <= at {
        return 0;
    }
    further(task::kinds::kind_at(rows, at))
}

// The trackers of all preferences, by the rows at which they begin.
pub fn all_trackers(
    out: &mut [u8],
    c: Cursor,
    rows: &Rows,
    starts: &[usize],
    facts: u32,
    last: bool,
) -> Cursor
    requires { Room c out.old × Noted starts.now facts }
    ensures { Wrote out.old c (trackers_by rows.now.marks.now rows.now.values.now starts.now facts last) result out.new }
{
    let mut k = c;
    let mut s = facts;
    let mut d = facts + 3 * (starts.len() as u32) + 1;
    for &at in starts {
        if writer::OVERFULL <= k.next {
            return k;
        }
        let f = Facts { s, b: s + 1, d };
        k = trackers_at(&mut *out, k, rows, at, f, last);
        s += 3;
        d += further_at(rows, at);
    }
    k
}
