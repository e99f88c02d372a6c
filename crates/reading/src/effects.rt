// An action's effects, read one after the other, and applied.
ghost use Rattle.std.specs.Prelude.{◌≡◌, ◌≤◌, ◌<◌, length};
ghost use Rattle.state.specs.Member.{member, union, difference};
ghost use Rattle.reading.specs.Effects.{marked, mark_at, result_of, SomeEffect, Gathers, SomeEffects, state_of, Changes};

use super::conditions;
use state::State;
use task::marks;
use task::rows::Rows;

// The facts that some rows make, and the row after them.
#[derive(Clone, Copy)]
pub struct Applied {
    pub state: State,
    pub next: usize,
}

// What the effects read so far add and delete, how many literals were looked at, and the row after them.
#[derive(Clone, Copy)]
struct Gathered {
    pub adds: State,
    pub deletes: State,
    pub looked: usize,
    pub next: usize,
}

// The state after the effects, in two words, and how many literals were looked at. The words stand apart, since a copy of both at once
// would have to wait for two stores.
#[derive(Clone, Copy)]
pub struct Changed {
    pub low: u64,
    pub looked: usize,
    pub high: u64,
}

// The facts t, and fact n where the effect fires.
fn with_if(fires: bool, t: State, n: u32) -> State
    ensures { member result ≡ marked fires (member t) n }
{
    if fires { state::with(t, n) } else { t }
}

// The facts t, and where the effect fires those of the rows of one mark from `at` on.
fn mark_all(rows: &Rows, at: usize, mark: u8, fires: bool, t: State) -> Applied
    requires { at ≤ length rows.now.marks.now }
    ensures result_value { result_of result ≡ mark_at mark fires (member t) rows.now.marks.now rows.now.values.now at }
    ensures at_le_next { (at ≤ result.next) × (result.next ≤ length rows.now.marks.now) }
{
    let mut f = t;
    for i in at..rows.marks.len() {
        if rows.marks[i] != mark {
            return Applied { state: f, next: i };
        }
        f = with_if(fires, f, rows.value(i));
    }
    Applied {
        state: f,
        next: rows.marks.len(),
    }
}

// One effect more: the one that row i opens.
fn one_effect(rows: &Rows, i: usize, s: State, g: Gathered) -> Gathered
    requires rows { (i < length rows.now.marks.now) × (g.looked ≤ i) }
    requires some_effect { SomeEffect rows.now.marks.now rows.now.values.now i }
    ensures i_lt_next { (i < result.next) × (result.looked ≤ result.next) × (result.next ≤ length rows.now.marks.now) }
    ensures gathers { Gathers (member s) rows.now.marks.now rows.now.values.now i g result }
{
    let adds = g.adds;
    let deletes = g.deletes;
    let c = conditions::condition(rows, i + 1, s);
    let a = mark_all(rows, c.next, marks::ADD, c.holds, adds);
    let d = mark_all(rows, a.next, marks::DELETE, c.holds, deletes);
    let more = a.state;
    let less = d.state;
    let looked = g.looked + c.looked;
    Gathered {
        adds: more,
        deletes: less,
        looked,
        next: d.next,
    }
}

fn finished(g: Gathered, s: State) -> Changed
    ensures { (member (state_of result) ≡ union (difference (member s) (member g.deletes)) (member g.adds)) × (result.looked ≡ g.looked) }
{
    let adds = g.adds;
    let deletes = g.deletes;
    let state = state::join(state::minus(s, deletes), adds);
    Changed {
        low: state.low,
        looked: g.looked,
        high: state.high,
    }
}

// The effects that stand from row `at` on, all read in s, and applied to it.
pub fn after(rows: &Rows, at: usize, s: State) -> Changed
    requires { SomeEffects rows.now.marks.now rows.now.values.now at }
    ensures { Changes (member s) rows.now.marks.now rows.now.values.now at result × (result.looked ≤ length rows.now.marks.now) }
{
    let mut g = Gathered {
        adds: state::none(),
        deletes: state::none(),
        looked: 0,
        next: at,
    };
    let mut i = at;
    while i < rows.marks.len() {
        if rows.marks[i] != marks::EFFECT {
            return finished(g, s);
        }
        let h = one_effect(rows, i, s, g);
        g = h;
        i = h.next;
    }
    finished(g, s)
}
