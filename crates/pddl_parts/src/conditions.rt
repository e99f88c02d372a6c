// Conditions as PDDL, written as the rows are read. What does not fit into the area is dropped, as in crate text.
ghost use Rattle.std.specs.Prelude.{◌≡◌, ◌+◌, ◌*◌, ◌-◌, ◌^◌, ◌≤◌, ◌<◌, length};
ghost use Rattle.task.specs.TaskRows.{row};
ghost use Rattle.text.specs.Area.{Wrote};
ghost use Rattle.pddl_parts.specs.Pddl.{fact_text, not_text};
ghost use Rattle.pddl_parts.specs.Rows.{row_text, mark_at, list_at};
ghost use Rattle.pddl_parts.specs.Pieces.{clause, condition};
ghost use Rattle.pddl_parts.specs.Writing.{stretch, Reading, Spells, PieceAnswer};

use task::marks;
use task::rows::Rows;

// The place after what was written, and the row after those that were read.
#[derive(Clone, Copy)]
pub struct Emitted {
    pub at: usize,
    pub next: usize,
}

// Writes a fact. Its pieces are not put_number's, which is too large to be put into its callers.
pub fn put_fact(out: &mut [u8], at: usize, n: u32) -> usize
    requires { at + 23 < 2 ^ 64 }
    ensures wrote { Wrote out.old at (fact_text n) result out.new }
    ensures upper_bound { result ≤ at + 23 }
{
    let a = text::put_bytes(&mut *out, at, b"(f");
    let b = text::put_decimal(&mut *out, a, n as u64);
    text::put_byte(&mut *out, b, b')')
}

// Writes that a fact does not hold.
fn put_denied(out: &mut [u8], at: usize, n: u32) -> usize
    requires { at + 29 < 2 ^ 64 }
    ensures wrote { Wrote out.old at (not_text n) result out.new }
    ensures upper_bound { result ≤ at + 29 }
{
    let a = text::put_bytes(&mut *out, at, b"(not (f");
    let b = text::put_decimal(&mut *out, a, n as u64);
    text::put_bytes(&mut *out, b, b"))")
}

// Writes the fact that a row names, or that it does not hold.
fn put_row(out: &mut [u8], at: usize, mark: u8, value: u32) -> usize
    requires { at + 29 < 2 ^ 64 }
    ensures wrote { Wrote out.old at (row_text (row mark value)) result out.new }
    ensures upper_bound { result ≤ at + 29 }
{
    if (mark == marks::LACKS) | (mark == marks::DELETE) {
        put_denied(&mut *out, at, value)
    } else {
        put_fact(&mut *out, at, value)
    }
}

// Whether row i has a mark between the two.
pub(crate) fn has_mark(marks: &[u8], i: usize, least: u8, most: u8) -> bool
    ensures { result ≡ mark_at least most marks.now i }
{
    if marks.len() <= i {
        return false;
    }
    let mark = marks[i];
    (least <= mark) & (mark <= most)
}

// Writes the rows from `from` on whose marks are between the two, each after a space.
pub fn put_list(out: &mut [u8], at: usize, rows: &Rows, from: usize, least: u8, most: u8) -> Emitted
    requires { Reading rows.now.marks.now rows.now.values.now from at 30 }
    ensures wrote { Wrote out.old at (list_at least most rows.now.marks.now rows.now.values.now from).text result.at out.new }
    ensures next_value { result.next ≡ (list_at least most rows.now.marks.now rows.now.values.now from).next }
    ensures from_le_next { (from ≤ result.next) × (result.next ≤ length rows.now.marks.now) × (result.at ≤ at + 30 * (result.next - from)) }
{
    let mut k = at;
    for i in from..rows.marks.len() {
        if !has_mark(rows.marks, i, least, most) {
            return Emitted { at: k, next: i };
        }
        k = text::put_byte(&mut *out, k, b' ');
        k = put_row(&mut *out, k, rows.marks[i], rows.value(i));
    }
    Emitted {
        at: k,
        next: rows.marks.len(),
    }
}

// Writes the clause that row `from` opens.
fn put_clause(out: &mut [u8], at: usize, rows: &Rows, from: usize) -> Emitted
    requires { Reading rows.now.marks.now rows.now.values.now from at 30 × (from < length rows.now.marks.now)
        × Spells clause (stretch rows.now.marks.now rows.now.values.now from) }
    ensures piece_answer { PieceAnswer clause (stretch rows.now.marks.now rows.now.values.now from) out.old at result out.new }
    ensures from_lt_next { (from < result.next) × (result.next ≤ length rows.now.marks.now) × (result.at ≤ at + 30 * (result.next - from)) }
{
    let i = from + 1;
    let one = has_mark(rows.marks, i, marks::HOLDS, marks::LACKS);
    let two = has_mark(rows.marks, i + 1, marks::HOLDS, marks::LACKS);
    if one & !two {
        let k = put_row(&mut *out, at, rows.marks[i], rows.value(i));
        return Emitted { at: k, next: i + 1 };
    }
    let k = text::put_bytes(&mut *out, at, b"(or");
    let s = put_list(&mut *out, k, rows, i, marks::HOLDS, marks::LACKS);
    let k = text::put_byte(&mut *out, s.at, b')');
    Emitted {
        at: k,
        next: s.next,
    }
}

// Writes the condition whose rows begin at `from`.
pub fn put_condition(out: &mut [u8], at: usize, rows: &Rows, from: usize) -> Emitted
    requires { Reading rows.now.marks.now rows.now.values.now from (at + 5) 31 × Spells condition (stretch rows.now.marks.now rows.now.values.now from) }
    ensures piece_answer { PieceAnswer condition (stretch rows.now.marks.now rows.now.values.now from) out.old at result out.new }
    ensures from_le_next { (from ≤ result.next) × (result.next ≤ length rows.now.marks.now) × (result.at ≤ at + 31 * (result.next - from) + 5) }
{
    let mut k = text::put_bytes(&mut *out, at, b"(and");
    let mut i = from;
    while has_mark(rows.marks, i, marks::CLAUSE, marks::CLAUSE) {
        k = text::put_byte(&mut *out, k, b' ');
        let s = put_clause(&mut *out, k, rows, i);
        k = s.at;
        i = s.next;
    }
    k = text::put_byte(&mut *out, k, b')');
    Emitted { at: k, next: i }
}
