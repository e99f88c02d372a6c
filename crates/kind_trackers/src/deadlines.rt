// The trackers of within and always-within. D of j is the fact d + j.
ghost use Rattle.std.specs.Prelude.{◌≡◌, map, ◌+◌, ◌<◌, ◌≤◌};
ghost use Rattle.lists.specs.Lists.{range, concat_map};
ghost use Rattle.task.specs.Marks.{DELETE};
ghost use Rattle.task.specs.TaskRows.{row};
ghost use Rattle.classical.specs.Translation.{fact_d};
ghost use Rattle.task.specs.Limits.{MAX_DEADLINE};
ghost use Rattle.layout.specs.Sides.{part};
ghost use Rattle.writer.specs.Writer.{Room, Wrote};
ghost use Rattle.kind_trackers.specs.Rows.{SidesInside, sided, BEYOND, Small, onward_rows, count_rows, within_rows, wait_rows, all_wait_rows, reset_rows, soon_rows, Timed, Waits};

use super::Facts;
use effects::{Change, Effect, Guard};
use layout::sides::{Sides, Span};
use task::marks;
use task::rows::Rows;
use writer::Cursor;

// D of j holds: D of j + 1 is added.
fn put_onward(out: &mut [u8], c: Cursor, d: u32, j: u32) -> Cursor
    requires { Room c out.old × (d < BEYOND) × (j < BEYOND) }
    ensures { Wrote out.old c (onward_rows d j) result out.new }
{
    let k = writer::put_row(&mut *out, c, marks::EFFECT, 0);
    let k = writer::put_single(&mut *out, k, marks::HOLDS, d + j);
    writer::put_row(&mut *out, k, marks::ADD, d + (j + 1))
}

fn onwards(out: &mut [u8], c: Cursor, d: u32, steps: u32) -> Cursor
    requires { Room c out.old × Timed d steps }
    ensures { Wrote out.old c (concat_map (onward_rows d) (range 1 steps)) result out.new }
{
    let mut k = c;
    for j in 1..=steps {
        k = put_onward(&mut *out, k, d, j);
    }
    k
}

// D1, D2 and so on count the states.
fn put_count(out: &mut [u8], c: Cursor, d: u32, steps: u32) -> Cursor
    requires { Room c out.old × Timed d steps }
    ensures { Wrote out.old c (count_rows d steps) result out.new }
{
    let k = writer::put_row(&mut *out, c, marks::EFFECT, 0);
    let k = writer::put_row(&mut *out, k, marks::ADD, d + 1);
    onwards(&mut *out, k, d, steps)
}

pub fn within(out: &mut [u8], c: Cursor, rows: &Rows, p: Sides, f: Facts, steps: u32) -> Cursor
    requires { Room c out.old × SidesInside rows.now.marks.now p × Small f × (steps ≤ MAX_DEADLINE) }
    ensures { Wrote out.old c (sided rows.now.marks.now rows.now.values.now p (within_rows f steps)) result out.new }
{
    let phi = p.first;
    let d = f.d;
    let in_time = Effect {
        guard: Guard::Lacks(d + (steps + 1)),
        condition: phi,
        change: Change::Add(f.s),
    };
    let k = put_count(&mut *out, c, d, steps);
    effects::put_effect(&mut *out, k, rows, in_time)
}

// D of j of always-within: after the last step it is S.
fn fact_d(f: Facts, steps: u32, j: u32) -> u32
    requires { Small f × (j < BEYOND) }
    ensures { result ≡ fact_d steps f.s f.d j }
{
    if j <= steps { f.d + j } else { f.s }
}

// D of j holds with each false clause of ψ: D of j + 1 is added.
fn put_wait(
    out: &mut [u8],
    c: Cursor,
    rows: &Rows,
    psi: Span,
    f: Facts,
    steps: u32,
    j: u32,
) -> Cursor
    requires { Room c out.old × Waits rows.now.marks.now psi f j }
    ensures { Wrote out.old c (wait_rows f steps (part rows.now.marks.now rows.now.values.now psi) j) result out.new }
{
    let next = fact_d(f, steps, j + 1);
    let waits = Effect {
        guard: Guard::Holds(f.d + j),
        condition: psi,
        change: Change::Add(next),
    };
    effects::each_false(&mut *out, c, rows, waits)
}

fn put_waits(out: &mut [u8], c: Cursor, rows: &Rows, psi: Span, f: Facts, steps: u32) -> Cursor
    requires { Room c out.old × Waits rows.now.marks.now psi f steps }
    ensures { Wrote out.old c (all_wait_rows f steps (part rows.now.marks.now rows.now.values.now psi)) result out.new }
{
    let mut k = c;
    for j in 1..=steps {
        k = put_wait(&mut *out, k, rows, psi, f, steps, j);
    }
    k
}

// Deletes D1, D2 and so on.
fn put_deletes(out: &mut [u8], c: Cursor, d: u32, steps: u32) -> Cursor
    requires { Room c out.old × Timed d steps }
    ensures { Wrote out.old c (map (row DELETE) (range (d + 1) steps)) result out.new }
{
    let mut k = c;
    for j in 1..=steps {
        k = writer::put_row(&mut *out, k, marks::DELETE, d + j);
    }
    k
}

// ψ ends all waiting, where it comes in time.
fn put_reset(out: &mut [u8], c: Cursor, rows: &Rows, psi: Span, f: Facts, steps: u32) -> Cursor
    requires { Room c out.old × Waits rows.now.marks.now psi f steps }
    ensures { Wrote out.old c (reset_rows f steps (part rows.now.marks.now rows.now.values.now psi)) result out.new }
{
    let in_time = Effect {
        guard: Guard::Lacks(f.s),
        condition: psi,
        change: Change::Delete(f.b),
    };
    let k = effects::put_effect(&mut *out, c, rows, in_time);
    put_deletes(&mut *out, k, f.d, steps)
}

pub fn always_within(
    out: &mut [u8],
    c: Cursor,
    rows: &Rows,
    p: Sides,
    f: Facts,
    steps: u32,
) -> Cursor
    requires { Room c out.old × SidesInside rows.now.marks.now p × Small f × (steps ≤ MAX_DEADLINE) }
    ensures { Wrote out.old c (sided rows.now.marks.now rows.now.values.now p (soon_rows f steps)) result out.new }
{
    let phi = p.first;
    let psi = p.second;
    let first = fact_d(f, steps, 1);
    let begins = Effect {
        guard: Guard::Rows(phi),
        condition: psi,
        change: Change::AddBoth(f.b, first),
    };
    let k = effects::each_false(&mut *out, c, rows, begins);
    let k = put_waits(&mut *out, k, rows, psi, f, steps);
    put_reset(&mut *out, k, rows, psi, f, steps)
}
