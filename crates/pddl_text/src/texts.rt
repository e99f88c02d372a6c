// The domain and the problem of a task.
ghost use Rattle.std.specs.Prelude.{◌+◌, ◌*◌, ◌^◌, ◌≤◌, ◌<◌, length};
ghost use Rattle.lists.specs.Lists.{range};
ghost use Rattle.task.specs.Limits.{MAX_FACTS};
ghost use Rattle.text.specs.Area.{Wrote};
ghost use Rattle.pddl_parts.specs.Pddl.{spaced, fact_text};
ghost use Rattle.pddl_parts.specs.Writing.{stretch};
ghost use Rattle.pddl_text.specs.Writing.{Spelled, ActionsOver, ProblemAnswer, DomainAnswer};

use pddl_parts::conditions::Emitted;
use pddl_parts::{actions, conditions};
use task::marks;
use task::rows::Rows;

// Writes so many facts, each after a space.
fn put_facts(out: &mut [u8], at: usize, facts: usize) -> usize
    requires { (facts ≤ MAX_FACTS) × (at + 24 * facts < 2 ^ 64) }
    ensures wrote { Wrote out.old at (spaced fact_text (range 0 facts)) result out.new }
    ensures upper_bound { result ≤ at + 24 * facts }
{
    let mut k = at;
    for i in 0..facts {
        k = text::put_byte(&mut *out, k, b' ');
        k = conditions::put_fact(&mut *out, k, i as u32);
    }
    k
}

// Writes the problem, and answers the row of the first action with its length.
pub fn put_problem(out: &mut [u8], rows: &Rows) -> Emitted
    requires { Spelled rows.now.marks.now rows.now.values.now }
    ensures problem_answer { ProblemAnswer rows.now.marks.now rows.now.values.now out.old result out.new }
    ensures next_in_bounds { result.next ≤ length rows.now.marks.now }
{
    let k = text::put_bytes(
        &mut *out,
        0,
        b"(define (problem p) (:domain d)\n(:init (= (total-cost) 0)",
    );
    let s = conditions::put_list(&mut *out, k, rows, 0, marks::START, marks::START);
    let k = text::put_bytes(&mut *out, s.at, b")\n(:goal ");
    let c = conditions::put_condition(&mut *out, k, rows, s.next + 1);
    let k = text::put_bytes(&mut *out, c.at, b")\n(:metric minimize (total-cost)))\n");
    Emitted {
        at: k,
        next: c.next,
    }
}

// Writes the domain; the first action stands at row `from`.
pub fn put_domain(out: &mut [u8], facts: usize, rows: &Rows, from: usize) -> usize
    requires { (from ≤ length rows.now.marks.now) × (facts ≤ MAX_FACTS) × ActionsOver facts (stretch rows.now.marks.now rows.now.values.now from) }
    ensures { DomainAnswer facts (stretch rows.now.marks.now rows.now.values.now from) out.old result out.new }
{
    let k = text::put_bytes(
        &mut *out,
        0,
        b"(define (domain d)\n(:requirements :negative-preconditions :disjunctive-preconditions :conditional-effects :action-costs)\n(:predicates",
    );
    let k = put_facts(&mut *out, k, facts);
    let k = text::put_bytes(&mut *out, k, b")\n(:functions (total-cost))\n");
    let s = actions::put_actions(&mut *out, k, rows, from);
    text::put_bytes(&mut *out, s.at, b")\n")
}
