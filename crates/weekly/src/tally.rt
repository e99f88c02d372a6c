// The plans of a week, taken in one by one.
ghost use Rattle.std.specs.Prelude.{◌≡◌, cond, ◌||◌, ℕ, ◌+◌, ◌≤◌, ◌<◌, eqb, ltb};
ghost use Rattle.task.specs.Check.{accepted, check};
ghost use Rattle.task.specs.Answers.{as_sizes};
ghost use Rattle.task.specs.Limits.{MAX_PLANS, MAX_PREFERENCES};
ghost use Rattle.state.specs.Member.{bit};
ghost use Rattle.settling.specs.Answers.{settled_as};
ghost use Rattle.plan.specs.Judged.{judged};
ghost use Rattle.plan.specs.ThenSettled.{priced, with_amounts};
ghost use Rattle.plan.specs.Answers.{as_verdict};
ghost use Rattle.figures.specs.Pass.{raised, counted, turned, MOST, Small};
ghost use Rattle.weekly.specs.Answers.{as_tally, turn_as};
ghost use Rattle.weekly.specs.Turns.{Cheap, Counts, Room, WalkedTo};

use plan::Verdict;
use settling::Worth;
use task::{Refusal, Sizes, limits};

// Of the plans so far: how many solve, of their metrics the least, the greatest and the sum, and how many of them meet each preference.
#[derive(Clone, Copy)]
pub struct Totals {
    pub solving: u64,
    pub least: u64,
    pub greatest: u64,
    pub sum: u64,
    pub meeting: [u64; limits::MAX_PREFERENCES],
}

// A count, one more where preference k is met.
fn raised_count(c: u64, met: u64, k: usize) -> u64
    requires { (c ≤ 80) × (k < MAX_PREFERENCES) }
    ensures { (result ≡ cond (bit met k) (c + 1) c) × (result ≤ c + 1) }
{
    if settling::is_met(met, k as u32) {
        return c + 1;
    }
    c
}

// One more for each preference that is met.
fn raise(met: u64, meeting: &mut [u64; limits::MAX_PREFERENCES])
    requires { Counts meeting.old }
    ensures { meeting.new ≡ raised (bit met) 0 meeting.old }
{
    for k in 0..limits::MAX_PREFERENCES {
        meeting[k] = raised_count(meeting[k], met, k);
    }
}

// The least metric with one more.
fn least(t: &Totals, metric: u64) -> u64
    ensures { result ≡ cond (eqb t.now.solving 0 || ltb metric t.now.least) metric t.now.least }
{
    if t.solving == 0 {
        return metric;
    }
    t.least.min(metric)
}

// One plan more that solves, of a metric and met preferences.
fn count(t: &mut Totals, metric: u64, met: u64)
    requires { Room t.old × (metric ≤ MOST) }
    ensures { as_tally t.new ≡ counted (as_tally t.old) metric (bit met) }
{
    t.least = least(&*t, metric);
    t.greatest = t.greatest.max(metric);
    t.sum += metric;
    t.solving += 1;
    raise(met, &mut t.meeting);
}

// Takes in plan k, which solves, by what settle answers: it refuses nothing that walk gave.
fn take_settled(k: u16, s: Result<Worth, Refusal>, met: u64, t: &mut Totals) -> Result<(), Refusal>
    requires { Room t.old × Cheap s }
    ensures { (cost : ℕ) → turn_as result t.new ≡ turned k (as_tally t.old) (priced cost (bit met) (settled_as s)) }
{
    match s {
        Ok(w) => {
            count(&mut *t, w.metric, met);
            Ok(())
        }
        Err(f) => Err(f.cause.at(k)),
    }
}

// Takes in plan k by its verdict on the task in an accepted file: one that does not solve changes nothing.
fn take_verdict(file: &[u8], z: Sizes, k: u16, v: Verdict, t: &mut Totals) -> Result<(), Refusal>
    requires file_value { (check file.now ≡ accepted (as_sizes z)) × WalkedTo file.now (as_verdict v) }
    requires room { Room t.old }
    ensures { turn_as result t.new ≡ turned k (as_tally t.old) (with_amounts file.now (as_verdict v)) }
{
    match v {
        Verdict::Solved(s) => {
            let settled = settling::settle_on(file, z, s.cost, s.met);
            take_settled(k, settled, s.met, &mut *t)
        }
        Verdict::Stopped(_) => Ok(()),
        Verdict::GoalMissed => Ok(()),
        Verdict::RuleMissed(_) => Ok(()),
    }
}

// Takes in plan k, walked on the task in an accepted file.
pub fn take_plan(file: &[u8], z: Sizes, k: u16, plan: &[u8], t: &mut Totals) -> Result<(), Refusal>
    requires { (check file.now ≡ accepted (as_sizes z)) × (k < MAX_PLANS) × Small MOST k (as_tally t.old) }
    ensures { turn_as result t.new ≡ turned k (as_tally t.old) (judged file.now plan.now) }
{
    let w = plan::walk_on(file, z, plan);
    match w {
        Ok(given) => take_verdict(file, z, k, given.verdict, &mut *t),
        Err(r) => Err(r.cause.at(k)),
    }
}
