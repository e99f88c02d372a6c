// Rows that stand in runs, gathered in two sets of facts.
ghost use Rattle.std.specs.Prelude.{◌≡◌, ◌/◌, ◌<◌, length};
ghost use Rattle.task.specs.Rows.{between};
ghost use Rattle.task.specs.Limits.{MAX_FACTS};
ghost use Rattle.spelling.specs.Runs.{is_listed, first_mark, second_mark, slot_of, sets_in, with_fact, none, ended, gather_at, as_run};

use state::State;
use task::marks;
use task::rows::Rows;

// The facts of a run's rows, by their mark, and the row after the run.
#[derive(Clone, Copy)]
pub struct Gathered {
    pub first: State,
    pub second: State,
    pub next: usize,
}

// Whether a mark is one from a to b.
fn in_run(mark: u8, a: u8, b: u8) -> bool
    ensures { result ≡ between a b mark }
{
    (a <= mark) & (mark <= b)
}

// Whether rows of this mark stand in runs: literals, ADD rows and DELETE rows.
pub fn is_listed(mark: u8) -> bool
    ensures { result ≡ is_listed mark }
{
    in_run(mark, marks::HOLDS, marks::DELETE)
}

// The first mark of the run that a row of this mark is in.
pub fn first_mark(mark: u8) -> u8
    ensures { result ≡ first_mark mark }
{
    if mark <= marks::LACKS {
        marks::HOLDS
    } else {
        mark
    }
}

// The second.
pub fn second_mark(mark: u8) -> u8
    ensures { result ≡ second_mark mark }
{
    if mark <= marks::LACKS {
        marks::LACKS
    } else {
        mark
    }
}

// The word of a fact below 128: the first set has two words, then the second has two.
fn slot(fact: u32, in_first: bool) -> usize
    requires { fact < MAX_FACTS }
    ensures { result ≡ slot_of in_first (fact / 64) }
{
    let q = (fact / 64) as usize;
    if in_first { q } else { 2 + q }
}

// Takes a fact in, by its place in memory and without a branch on the mark or the word, since facts come in any order.
fn take_in(words: &mut [u64], fact: u32, in_first: bool)
    requires { length words.old ≡ 4 }
    ensures { sets_in words.new ≡ with_fact in_first (sets_in words.old) fact }
{
    if fact < 128 {
        let k = slot(fact, in_first);
        words[k] = words[k] | (1 << (fact % 64));
    }
}

fn run_of(words: &[u64], next: usize) -> Gathered
    requires { length words.now ≡ 4 }
    ensures { as_run result ≡ ended (sets_in words.now) next }
{
    Gathered {
        first: State {
            low: words[0],
            high: words[1],
        },
        second: State {
            low: words[2],
            high: words[3],
        },
        next,
    }
}

// Gathers the rows from `from` on that have the marks a and b, or those between.
pub fn gather(rows: &Rows, from: usize, a: u8, b: u8) -> Gathered
    ensures { as_run result ≡ gather_at a b none rows.now.marks.now rows.now.values.now from }
{
    let mut words: [u64; 4] = [0; 4];
    for i in from..rows.marks.len() {
        let mark = rows.marks[i];
        if !in_run(mark, a, b) {
            return run_of(&words, i);
        }
        take_in(&mut words, rows.value(i), mark == a);
    }
    run_of(&words, usize::max(from, rows.marks.len()))
}
