// The last line of program confirm: what a planner paid, held to the metric that walk and then settle give the plan.
#![tactic(auto)]

ghost use Rattle.std.specs.Prelude.{◌≡◌, ◌++◌, ◌≤◌, length, drop};
ghost use Rattle.plan.specs.Answers.{as_verdict};
ghost use Rattle.plan.specs.ThenSettled.{with_amounts};
ghost use Rattle.text.specs.Area.{Wrote};
ghost use Rattle.paid_line.specs.Paid.{LONGEST, metric, metric_in, metric_of, held_to, line_on};
ghost use Rattle.paid_line.specs.Answers.{metric_as};

use plan::Verdict;

// An area of this length holds every such line.
pub const MAX_LINE: usize = 64;

// The metric of a plan with this verdict on the task in a file, where it solves.
fn metric_in(file: &[u8], v: Verdict) -> Option<u64>
    ensures { metric_as result ≡ metric_in (with_amounts file.now (as_verdict v)) }
{
    match v {
        Verdict::Solved(s) => match settling::settle(file, s.cost, s.met) {
            Ok(w) => Some(w.metric),
            Err(_) => None,
        },
        Verdict::Stopped(_) | Verdict::GoalMissed | Verdict::RuleMissed(_) => None,
    }
}

// The metric of a plan on the task in a file, where it solves.
fn metric_of(file: &[u8], plan: &[u8]) -> Option<u64>
    ensures { metric_as result ≡ metric_of file.now plan.now }
{
    match plan::walk(file, plan) {
        Ok(w) => metric_in(file, w.verdict),
        Err(_) => None,
    }
}

// Writes the line of a plan that is worth so much.
fn put_solved(out: &mut [u8], worth: u64, cost: u64) -> usize
    ensures wrote { Wrote out.old 0 (held_to (metric worth) cost) result out.new }
    ensures upper_bound { result ≤ LONGEST }
{
    if cost == worth {
        return text::put_number(&mut *out, 0, b"paid ", cost, b"\n");
    }
    let a = text::put_number(&mut *out, 0, b"paid ", cost, b" but worth ");
    let b = text::put_decimal(&mut *out, a, worth);
    text::put_byte(&mut *out, b, b'\n')
}

// Writes the line of a plan of this metric.
fn put_held(out: &mut [u8], m: Option<u64>, cost: u64) -> usize
    ensures wrote { Wrote out.old 0 (held_to (metric_as m) cost) result out.new }
    ensures upper_bound { result ≤ LONGEST }
{
    match m {
        Some(worth) => put_solved(out, worth, cost),
        None => text::put_number(out, 0, b"paid ", cost, b" but not solved\n"),
    }
}

// Writes the line about a plan on the task in a file, for which so much was paid, to the area's start, and answers its length.
pub fn put_paid(file: &[u8], plan: &[u8], cost: u64, out: &mut [u8; MAX_LINE]) -> usize
    ensures value { result ≡ length (line_on file.now plan.now cost) }
    ensures out_after { out.new ≡ line_on file.now plan.now cost ++ drop result out.old }
    ensures upper_bound { (result ≤ LONGEST) × (length out.new ≡ 64) }
{
    let m = metric_of(file, plan);
    put_held(out, m, cost)
}
