// Actions as PDDL, written as the rows are read.
ghost use Rattle.std.specs.Prelude.{◌+◌, ◌*◌, ◌-◌, ◌^◌, ◌≤◌, ◌<◌, length};
ghost use Rattle.text.specs.Area.{Wrote};
ghost use Rattle.pddl_parts.specs.Pddl.{head_text, cost_text};
ghost use Rattle.pddl_parts.specs.Pieces.{effect, effects, action, actions};
ghost use Rattle.pddl_parts.specs.Writing.{stretch, Reading, Spells, PieceAnswer};

use super::conditions;
use super::conditions::Emitted;
use task::marks;
use task::rows::Rows;

// Writes the effect that row `from` opens.
fn put_effect(out: &mut [u8], at: usize, rows: &Rows, from: usize) -> Emitted
    requires { Reading rows.now.marks.now rows.now.values.now from at 31 × (from < length rows.now.marks.now)
        × Spells effect (stretch rows.now.marks.now rows.now.values.now from) }
    ensures piece_answer { PieceAnswer effect (stretch rows.now.marks.now rows.now.values.now from) out.old at result out.new }
    ensures from_lt_next { (from < result.next) × (result.next ≤ length rows.now.marks.now) × (result.at ≤ at + 31 * (result.next - from)) }
{
    let k = text::put_bytes(&mut *out, at, b"(when ");
    let c = conditions::put_condition(&mut *out, k, rows, from + 1);
    let k = text::put_bytes(&mut *out, c.at, b" (and");
    let s = conditions::put_list(&mut *out, k, rows, c.next, marks::ADD, marks::DELETE);
    let k = text::put_bytes(&mut *out, s.at, b"))");
    Emitted {
        at: k,
        next: s.next,
    }
}

// Writes the effects whose rows begin at `from`, each after a space.
fn put_effects(out: &mut [u8], at: usize, rows: &Rows, from: usize) -> Emitted
    requires { Reading rows.now.marks.now rows.now.values.now from at 32 × Spells effects (stretch rows.now.marks.now rows.now.values.now from) }
    ensures piece_answer { PieceAnswer effects (stretch rows.now.marks.now rows.now.values.now from) out.old at result out.new }
    ensures from_le_next { (from ≤ result.next) × (result.next ≤ length rows.now.marks.now) × (result.at ≤ at + 32 * (result.next - from)) }
{
    let mut k = at;
    let mut i = from;
    while conditions::has_mark(rows.marks, i, marks::EFFECT, marks::EFFECT) {
        k = text::put_byte(&mut *out, k, b' ');
        let s = put_effect(&mut *out, k, rows, i);
        k = s.at;
        i = s.next;
    }
    Emitted { at: k, next: i }
}

// Writes the line of action `number` up to its precondition.
fn put_head(out: &mut [u8], at: usize, number: usize) -> usize
    requires { at + 60 < 2 ^ 64 }
    ensures wrote { Wrote out.old at (head_text number) result out.new }
    ensures upper_bound { result ≤ at + 60 }
{
    let a = text::put_bytes(&mut *out, at, b"(:action a");
    let b = text::put_decimal(&mut *out, a, number as u64);
    text::put_bytes(&mut *out, b, b" :parameters () :precondition ")
}

// Writes what an action costs, which opens its effects.
fn put_cost(out: &mut [u8], at: usize, cost: u32) -> usize
    requires { at + 58 < 2 ^ 64 }
    ensures wrote { Wrote out.old at (cost_text cost) result out.new }
    ensures upper_bound { result ≤ at + 58 }
{
    let a = text::put_bytes(&mut *out, at, b" :effect (and (increase (total-cost) ");
    let b = text::put_decimal(&mut *out, a, cost as u64);
    text::put_byte(&mut *out, b, b')')
}

// Writes the line of action `number`, which row `from` opens.
fn put_action(out: &mut [u8], at: usize, number: usize, rows: &Rows, from: usize) -> Emitted
    requires { Reading rows.now.marks.now rows.now.values.now from at 160 × (from < length rows.now.marks.now)
        × Spells (action number) (stretch rows.now.marks.now rows.now.values.now from) }
    ensures piece_answer { PieceAnswer (action number) (stretch rows.now.marks.now rows.now.values.now from) out.old at result out.new }
    ensures from_lt_next { (from < result.next) × (result.next ≤ length rows.now.marks.now) × (result.at ≤ at + 160 * (result.next - from)) }
{
    let cost = rows.value(from);
    let k = put_head(&mut *out, at, number);
    let c = conditions::put_condition(&mut *out, k, rows, from + 1);
    let k = put_cost(&mut *out, c.at, cost);
    let s = put_effects(&mut *out, k, rows, c.next);
    let k = text::put_bytes(&mut *out, s.at, b"))\n");
    Emitted {
        at: k,
        next: s.next,
    }
}

// Writes the lines of the actions whose rows begin at `from`.
pub fn put_actions(out: &mut [u8], at: usize, rows: &Rows, from: usize) -> Emitted
    requires { Reading rows.now.marks.now rows.now.values.now from at 160 × Spells actions (stretch rows.now.marks.now rows.now.values.now from) }
    ensures piece_answer { PieceAnswer actions (stretch rows.now.marks.now rows.now.values.now from) out.old at result out.new }
    ensures from_le_next { (from ≤ result.next) × (result.next ≤ length rows.now.marks.now) × (result.at ≤ at + 160 * (result.next - from)) }
{
    let mut k = at;
    let mut i = from;
    let mut n = 0;
    while conditions::has_mark(rows.marks, i, marks::ACTION, marks::ACTION) {
        let s = put_action(&mut *out, k, n, rows, i);
        k = s.at;
        i = s.next;
        n += 1;
    }
    Emitted { at: k, next: i }
}
