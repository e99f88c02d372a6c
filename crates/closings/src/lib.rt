// Collect and forgo: the actions that close a preference.
#![tactic(auto)]

ghost use Rattle.std.specs.Prelude.{[], ◌∷◌, ◌+◌, ◌≤◌, ◌<◌};
ghost use Rattle.task.specs.Marks.{EFFECT, ADD};
ghost use Rattle.task.specs.TaskRows.{row, clause_rows, condition_rows};
ghost use Rattle.task.specs.Answers.{as_kind};
ghost use Rattle.classical.specs.Translation.{met_clause};
ghost use Rattle.writer.specs.Writer.{Room, Wrote};
ghost use Rattle.kind_trackers.specs.Rows.{BEYOND};
ghost use Rattle.trackers.specs.Trackers.{Noted};
ghost use Rattle.closings.specs.Closings.{missed, never_rows, closing_head, forgone_rows, Preceded};
ghost use Rattle.closings.specs.Closings.{preference_closings, closed, closings_at, closing_by};

use task::kinds::Kind;
use task::marks;
use task::rows::Rows;
use writer::Cursor;

// A preference that is closed: its kind, whether it is hard, its weight, whether it is the first, its fact S, and *ended*.
#[derive(Clone, Copy)]
struct Closing {
    pub kind: Kind,
    pub hard: bool,
    pub weight: u32,
    pub first: bool,
    pub s: u32,
    pub ended: u32,
}

// The clause that says that a preference is met.
fn put_met(out: &mut [u8], c: Cursor, kind: Kind, s: u32) -> Cursor
    requires { Room c out.old × (s < BEYOND) }
    ensures { Wrote out.old c (clause_rows (met_clause s (s + 1) (as_kind kind))) result out.new }
{
    let b = s + 1;
    match kind {
        Kind::Sometime | Kind::AtEnd | Kind::Within(_) => {
            writer::put_single(&mut *out, c, marks::HOLDS, s)
        }
        Kind::AtMostOnce => {
            let k = writer::put_single(&mut *out, c, marks::HOLDS, s);
            writer::put_row(&mut *out, k, marks::LACKS, b)
        }
        _ => writer::put_single(&mut *out, c, marks::LACKS, b),
    }
}

// Its literals denied, each a clause.
fn put_missed(out: &mut [u8], c: Cursor, kind: Kind, s: u32) -> Cursor
    requires { Room c out.old × (s < BEYOND) }
    ensures { Wrote out.old c (condition_rows (missed s (s + 1) (as_kind kind))) result out.new }
{
    let b = s + 1;
    match kind {
        Kind::Sometime | Kind::AtEnd | Kind::Within(_) => {
            writer::put_single(&mut *out, c, marks::LACKS, s)
        }
        Kind::AtMostOnce => {
            let k = writer::put_single(&mut *out, c, marks::LACKS, s);
            writer::put_single(&mut *out, k, marks::HOLDS, b)
        }
        _ => writer::put_single(&mut *out, c, marks::HOLDS, b),
    }
}

// What collect and forgo have before the outcome; the preference before it, if there is one, closes with fact s - 1.
fn open_closing(out: &mut [u8], c: Cursor, cost: u32, x: Closing) -> Cursor
    requires { Room c out.old × Preceded x.s }
    ensures { Wrote out.old c (closing_head cost x.first x.s x.ended) result out.new }
{
    let s = x.s;
    let k = writer::put_row(&mut *out, c, marks::ACTION, cost);
    let k = writer::put_single(&mut *out, k, marks::HOLDS, x.ended);
    if x.first {
        return writer::put_single(&mut *out, k, marks::LACKS, s + 2);
    }
    let k = writer::put_single(&mut *out, k, marks::HOLDS, s - 1);
    writer::put_single(&mut *out, k, marks::LACKS, s + 2)
}

// What forgo of a hard preference has after its outcome: lacks ended.
fn put_never(out: &mut [u8], c: Cursor, hard: bool, ended: u32) -> Cursor
    requires { Room c out.old }
    ensures { Wrote out.old c (never_rows hard ended) result out.new }
{
    if hard {
        return writer::put_single(&mut *out, c, marks::LACKS, ended);
    }
    c
}

// The outcome that forgo needs.
fn put_forgone(out: &mut [u8], c: Cursor, x: Closing) -> Cursor
    requires { Room c out.old × (x.s < BEYOND) }
    ensures { Wrote out.old c (forgone_rows x.s x.ended (closed x)) result out.new }
{
    let k = put_missed(&mut *out, c, x.kind, x.s);
    put_never(&mut *out, k, x.hard, x.ended)
}

// The effect of collect and forgo: C is added.
fn put_closed(out: &mut [u8], c: Cursor, s: u32) -> Cursor
    requires { Room c out.old × (s < BEYOND) }
    ensures { Wrote out.old c (row EFFECT 0 ∷ row ADD (s + 2) ∷ []) result out.new }
{
    let k = writer::put_row(&mut *out, c, marks::EFFECT, 0);
    writer::put_row(&mut *out, k, marks::ADD, s + 2)
}

// Collect and forgo of one preference.
fn put_closing(out: &mut [u8], c: Cursor, x: Closing) -> Cursor
    requires { Room c out.old × Preceded x.s }
    ensures { Wrote out.old c (preference_closings x.first x.s x.ended (closed x)) result out.new }
{
    let k = open_closing(&mut *out, c, 0, x);
    let k = put_met(&mut *out, k, x.kind, x.s);
    let k = put_closed(&mut *out, k, x.s);
    let k = open_closing(&mut *out, k, x.weight, x);
    let k = put_forgone(&mut *out, k, x);
    put_closed(&mut *out, k, x.s)
}

// Collect and forgo of the preference at row `at`.
fn closing_at(
    out: &mut [u8],
    c: Cursor,
    rows: &Rows,
    at: usize,
    first: bool,
    s: u32,
    ended: u32,
) -> Cursor
    requires { Room c out.old × Preceded s }
    ensures { Wrote out.old c (closings_at rows.now.marks.now rows.now.values.now at first s ended) result out.new }
{
    if rows.marks.len() <= at {
        return c;
    }
    let kind = task::kinds::kind_at(rows, at);
    let hard = task::opens_hard(rows.marks[at]);
    let weight = rows.value(at);
    let x = Closing {
        kind,
        hard,
        weight,
        first,
        s,
        ended,
    };
    put_closing(&mut *out, c, x)
}

// Collect and forgo of all preferences, by the rows at which they begin.
pub fn put_closings(
    out: &mut [u8],
    c: Cursor,
    rows: &Rows,
    starts: &[usize],
    facts: u32,
    ended: u32,
) -> Cursor
    requires { Room c out.old × Noted starts.now facts × (1 ≤ facts) }
    ensures { Wrote out.old c (closing_by rows.now.marks.now rows.now.values.now starts.now facts ended) result out.new }
{
    let mut k = c;
    let mut s = facts;
    for &at in starts {
        if writer::OVERFULL <= k.next {
            return k;
        }
        k = closing_at(&mut *out, k, rows, at, s == facts, s, ended);
        s += 3;
    }
    k
}
