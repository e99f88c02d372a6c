// The actions of the translated task, and what its goal has beside the source's.
ghost use Rattle.std.specs.Prelude.{false, ◌+◌, ◌≤◌, ◌<◌};
ghost use Rattle.task.specs.Limits.{MAX_FACTS};
ghost use Rattle.writer.specs.Writer.{Room, Wrote};
ghost use Rattle.trackers.specs.Trackers.{Noted, trackers_by};
ghost use Rattle.translated_rows.specs.Parts.{Placed, BodyInside, Before, own_rows, source_actions, end_at};
ghost use Rattle.translated_rows.specs.Parts.{preferences_to, closed_rows};

use layout::sides;
use layout::sides::Span;
use task::marks;
use task::rows::Rows;
use writer::Cursor;

// An action's rows: its precondition up to row `mid`, its effects up to row `next`.
#[derive(Clone, Copy)]
pub(crate) struct Body {
    pub from: usize,
    pub mid: usize,
    pub next: usize,
}

// A source action, up to its trackers.
fn put_own(out: &mut [u8], c: Cursor, rows: &Rows, a: Body, normal: u32) -> Cursor
    requires { Room c out.old × BodyInside rows.now.marks.now a }
    ensures { Wrote out.old c (own_rows rows.now.marks.now rows.now.values.now a normal) result out.new }
{
    let head = Span {
        from: a.from,
        to: a.mid,
    };
    let tail = Span {
        from: a.mid,
        to: a.next,
    };
    let k = writer::copy_rows(&mut *out, c, rows, head);
    let k = writer::put_single(&mut *out, k, marks::HOLDS, normal);
    writer::copy_rows(&mut *out, k, rows, tail)
}

// The trackers of a source action: where rows t are those of the action before, they are written again.
fn put_trackers(
    out: &mut [u8],
    c: Cursor,
    rows: &Rows,
    starts: &[usize],
    facts: u32,
    t: Span,
) -> Cursor
    requires room { Room c out.old × Noted starts.now facts }
    requires before { Before out.old c t (trackers_by rows.now.marks.now rows.now.values.now starts.now facts false) }
    ensures { let trackers = trackers_by rows.now.marks.now rows.now.values.now starts.now facts false in
        Wrote out.old c trackers result out.new }
{
    if t.from < t.to {
        return writer::repeat_rows(&mut *out, c, t);
    }
    trackers::all_trackers(&mut *out, c, rows, starts, facts, false)
}

// The source's actions, which stand in the rows s; the preferences begin after them.
pub fn put_actions(
    out: &mut [u8],
    c: Cursor,
    rows: &Rows,
    s: Span,
    starts: &[usize],
    facts: u32,
    normal: u32,
) -> Cursor
    requires { Room c out.old × Placed rows.now.marks.now rows.now.values.now facts s starts.now normal }
    ensures { Wrote out.old c (source_actions rows.now.marks.now rows.now.values.now facts) result out.new }
{
    let to = s.to;
    let mut k = c;
    let mut j = s.from;
    let mut t = Span { from: 0, to: 0 };
    while j < to {
        if writer::OVERFULL <= k.next {
            return k;
        }
        let mid = sides::skip_marks(rows.marks, j + 1, marks::CLAUSE, marks::LACKS);
        let next = sides::skip_marks(rows.marks, mid, marks::EFFECT, marks::DELETE);
        let a = Body { from: j, mid, next };
        let own = put_own(&mut *out, k, rows, a, normal);
        k = put_trackers(&mut *out, own, rows, starts, facts, t);
        t = Span {
            from: own.next,
            to: k.next,
        };
        j = next;
    }
    k
}

// End, which reads the last state.
pub fn put_end(
    out: &mut [u8],
    c: Cursor,
    rows: &Rows,
    starts: &[usize],
    facts: u32,
    normal: u32,
) -> Cursor
    requires { Room c out.old × Noted starts.now facts × (normal ≤ MAX_FACTS) }
    ensures { Wrote out.old c (end_at rows.now.marks.now rows.now.values.now starts.now facts normal) result out.new }
{
    let k = writer::put_row(&mut *out, c, marks::ACTION, 0);
    let k = writer::put_single(&mut *out, k, marks::HOLDS, normal);
    let k = writer::put_row(&mut *out, k, marks::EFFECT, 0);
    let k = writer::put_row(&mut *out, k, marks::ADD, normal + 1);
    let k = writer::put_row(&mut *out, k, marks::DELETE, normal);
    trackers::all_trackers(&mut *out, k, rows, starts, facts, true)
}

// The goal's clauses that say that each preference is closed.
pub fn put_all_closed(out: &mut [u8], c: Cursor, facts: u32, ended: u32) -> Cursor
    requires { Room c out.old × (facts ≤ MAX_FACTS) × (ended ≤ MAX_FACTS + 1) }
    ensures { Wrote out.old c (closed_rows facts 0 (preferences_to facts ended)) result out.new }
{
    let mut k = c;
    for fact in (facts + 2..ended).step_by(3) {
        if writer::OVERFULL <= k.next {
            return k;
        }
        k = writer::put_single(&mut *out, k, marks::HOLDS, fact);
    }
    k
}
