// One action of a list: a source action, end, or the action that closes the next rule.
ghost use Rattle.std.specs.Prelude.{◌≡◌, cond, ℕ, ◌+◌, ◌*◌, ◌≤◌, ◌<◌, length};
ghost use Rattle.meaning.specs.Task.{Task};
ghost use Rattle.task.specs.Limits.{MAX_ACTIONS, MAX_PREFERENCES};
ghost use Rattle.layout.specs.Actions.{AllBelow, ActionAt, SomeAction};
ghost use Rattle.layout.specs.Counting.{AMPLE};
ghost use Rattle.losses.specs.Following.{Position};
ghost use Rattle.lost_run.specs.Run.{SteppedAs, closed_by, SomeRules, Rules, Ended, Setting, Stands, TakenAs, Little, Payable};

use super::rules;
use super::rules::Rule;
use plan::steps;
use state::State;
use task::rows::Rows;

// Where a list has come to: the source's state, the cost so far, whether end is still to come, and how many rules are closed.
#[derive(Clone, Copy)]
pub struct Place {
    pub state: State,
    pub cost: u64,
    pub running: bool,
    pub closed: usize,
}

// The place after the source action that row `from` opens, where it applies.
fn step(rows: &Rows, from: usize, p: Place) -> Option<Place>
    requires rows { (from < length rows.now.marks.now) × (p.cost < AMPLE) }
    requires some_action { SomeAction rows.now.marks.now rows.now.values.now from }
    ensures little { Little p result }
    ensures stepped_as { (t : Task) (k : ℕ) → ActionAt rows.now.marks.now rows.now.values.now from t k → SteppedAs t k p result }
{
    let state = p.state;
    let moved = steps::step(
        rows,
        from,
        steps::Position {
            low: state.low,
            high: state.high,
            cost: p.cost,
            looked: 0,
        },
    );
    match moved {
        Ok(q) => {
            let next = State {
                low: q.low,
                high: q.high,
            };
            Some(Place {
                state: next,
                cost: q.cost,
                running: p.running,
                closed: p.closed,
            })
        }
        Err(_) => None,
    }
}

// The action that closes rule k: collect where it is met, forgo where it is missed.
fn closing(actions: usize, met: bool, k: usize) -> usize
    requires { (actions ≤ MAX_ACTIONS) × (k < MAX_PREFERENCES) }
    ensures { result ≡ actions + cond met 1 2 + 2 * k }
{
    if met {
        actions + 1 + 2 * k
    } else {
        actions + 2 + 2 * k
    }
}

// What that action costs.
fn paid(x: Rule) -> u64
    ensures { (result ≡ cond x.met 0 x.weight) × (result < 4294967296) }
{
    if x.met { 0 } else { x.weight as u64 }
}

// Action j, where the next rule is x: the one that closes it goes, but for forgo of a hard rule.
fn close(x: Rule, actions: usize, j: usize, p: Place) -> Option<Place>
    requires { Payable actions p × (p.closed < MAX_PREFERENCES) }
    ensures { (result ≡ closed_by x actions j p) × Little p result }
{
    let k = p.closed;
    if !((j == closing(actions, x.met, k)) & (!x.hard | x.met)) {
        return None;
    }
    let state = p.state;
    let cost = p.cost + paid(x);
    Some(Place {
        state,
        cost,
        running: p.running,
        closed: k + 1,
    })
}

// Action j after the end, which has seen the last state: only one that closes the next rule goes.
fn close_next(
    rows: &Rows,
    rules: &[usize],
    actions: usize,
    j: usize,
    p: Place,
    ms: &[u8],
) -> Option<Place>
    requires { SomeRules rows.now.marks.now rows.now.values.now rules.now × Payable actions p }
    ensures little { Little p result }
    ensures taken_as { (t : Task) (q : Position) → Rules rows.now.marks.now rows.now.values.now rules.now t
        → Ended t ms.now actions p q → TakenAs t ms.now q j result }
{
    let k = p.closed;
    if rules.len() <= k {
        return None;
    }
    let x = rules::rule_at(rows, rules[k], k, ms);
    close(x, actions, j, p)
}

// Action j, where it applies. `starts` has the rows of the source's actions, `rules` those of its rules, the first of which is row `at`.
pub fn take(
    rows: &Rows,
    at: usize,
    starts: &[usize],
    rules: &[usize],
    j: usize,
    p: Place,
    ms: &mut [u8],
) -> Option<Place>
    requires rows { (length ms.old ≡ MAX_PREFERENCES) × (p.cost < AMPLE) × AllBelow (length rows.now.marks.now) starts.now }
    requires setting { (t : Task) × Setting rows.now.marks.now rows.now.values.now at starts.now rules.now t }
    ensures little { Little p result }
    ensures taken_as { (t : Task) (q : Position) → Setting rows.now.marks.now rows.now.values.now at starts.now rules.now t
        → Stands t ms.old p q → TakenAs t ms.new q j result }
{
    let actions = starts.len();
    if !p.running {
        return close_next(rows, rules, actions, j, p, &*ms);
    }
    if actions < j {
        return None;
    }
    let state = p.state;
    let _ = monitors::watch(rows, at, state, j == actions, &mut *ms);
    if j == actions {
        return Some(Place {
            state,
            cost: p.cost,
            running: false,
            closed: p.closed,
        });
    }
    step(rows, starts[j], p)
}
