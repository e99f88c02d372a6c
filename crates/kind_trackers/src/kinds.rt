// The trackers of the kinds without a deadline, as the table of trackers has them.
ghost use Rattle.writer.specs.Writer.{Room, Wrote};
ghost use Rattle.kind_trackers.specs.Rows.{SidesInside, sided, always_rows, once_rows, before_rows, after_rows, reached_rows};

use super::Facts;
use effects::{Change, Effect, Guard};
use layout::sides::Sides;
use task::rows::Rows;
use writer::Cursor;

pub fn always(out: &mut [u8], c: Cursor, rows: &Rows, p: Sides, f: Facts) -> Cursor
    requires { Room c out.old × SidesInside rows.now.marks.now p }
    ensures { Wrote out.old c (sided rows.now.marks.now rows.now.values.now p (always_rows f)) result out.new }
{
    let phi = p.first;
    let broken = Effect {
        guard: Guard::Nothing,
        condition: phi,
        change: Change::Add(f.b),
    };
    effects::each_false(&mut *out, c, rows, broken)
}

pub fn at_most_once(out: &mut [u8], c: Cursor, rows: &Rows, p: Sides, f: Facts) -> Cursor
    requires { Room c out.old × SidesInside rows.now.marks.now p }
    ensures { Wrote out.old c (sided rows.now.marks.now rows.now.values.now p (once_rows f)) result out.new }
{
    let phi = p.first;
    let begins = Effect {
        guard: Guard::BothLack(f.s, f.b),
        condition: phi,
        change: Change::Add(f.s),
    };
    let ends = Effect {
        guard: Guard::Holds(f.s),
        condition: phi,
        change: Change::Add(f.b),
    };
    let returns = Effect {
        guard: Guard::BothHold(f.s, f.b),
        condition: phi,
        change: Change::Delete(f.s),
    };
    let k = effects::put_effect(&mut *out, c, rows, begins);
    let k = effects::each_false(&mut *out, k, rows, ends);
    effects::put_effect(&mut *out, k, rows, returns)
}

pub fn sometime_before(out: &mut [u8], c: Cursor, rows: &Rows, p: Sides, f: Facts) -> Cursor
    requires { Room c out.old × SidesInside rows.now.marks.now p }
    ensures { Wrote out.old c (sided rows.now.marks.now rows.now.values.now p (before_rows f)) result out.new }
{
    let phi = p.first;
    let psi = p.second;
    let second = Effect {
        guard: Guard::Nothing,
        condition: psi,
        change: Change::Add(f.s),
    };
    let too_early = Effect {
        guard: Guard::Lacks(f.s),
        condition: phi,
        change: Change::Add(f.b),
    };
    let k = effects::put_effect(&mut *out, c, rows, second);
    effects::put_effect(&mut *out, k, rows, too_early)
}

pub fn sometime_after(out: &mut [u8], c: Cursor, rows: &Rows, p: Sides, f: Facts) -> Cursor
    requires { Room c out.old × SidesInside rows.now.marks.now p }
    ensures { Wrote out.old c (sided rows.now.marks.now rows.now.values.now p (after_rows f)) result out.new }
{
    let phi = p.first;
    let psi = p.second;
    let waits = Effect {
        guard: Guard::Rows(phi),
        condition: psi,
        change: Change::Add(f.b),
    };
    let done = Effect {
        guard: Guard::Nothing,
        condition: psi,
        change: Change::Delete(f.b),
    };
    let k = effects::each_false(&mut *out, c, rows, waits);
    effects::put_effect(&mut *out, k, rows, done)
}

// Sometime and at-end, where it is wanted.
pub fn reached(out: &mut [u8], c: Cursor, rows: &Rows, p: Sides, f: Facts, wanted: bool) -> Cursor
    requires { Room c out.old × SidesInside rows.now.marks.now p }
    ensures { Wrote out.old c (sided rows.now.marks.now rows.now.values.now p (reached_rows f wanted)) result out.new }
{
    if !wanted {
        return c;
    }
    let phi = p.first;
    let reaches = Effect {
        guard: Guard::Nothing,
        condition: phi,
        change: Change::Add(f.s),
    };
    effects::put_effect(&mut *out, c, rows, reaches)
}
