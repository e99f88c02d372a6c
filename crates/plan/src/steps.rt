// A plan's steps, one after the other.
ghost use Rattle.std.specs.Prelude.{◌≡◌, ℕ, ◌+◌, ◌*◌, ◌≤◌, ◌<◌, length};
ghost use Rattle.meaning.specs.Task.{Task};
ghost use Rattle.task.specs.Limits.{MAX_ACTIONS, MAX_PREFERENCES, MAX_STEPS};
ghost use Rattle.layout.specs.Rows.{Spells, Spelled};
ghost use Rattle.layout.specs.Actions.{actions_from, AllBelow, ActionAt, SomeAction};
ghost use Rattle.monitors.specs.Monitors.{MOST_LOOKED};
ghost use Rattle.layout.specs.Counting.{AMPLE};
ghost use Rattle.plan.specs.Steps.{state_of, Roomy, StepAnswer, Little};
ghost use Rattle.plan.specs.Steps.{Monitors, End, EndAnswer, AllFresh, Start, PlanAnswer};

use super::{Solution, Verdict, Walked};
use layout::actions;
use monitors::met;
use reading::{conditions, effects, opening};
use state::State;
use task::limits;
use task::rows::Rows;

// The rows at which the preferences begin, and the goal's condition.
#[derive(Clone, Copy)]
struct Places {
    pub preferences: usize,
    pub goal: usize,
}

// Where a plan has come to: the state, in two words, the cost, and how many literals were looked at. The words stand apart as in
// reading::effects.
#[derive(Clone, Copy)]
pub struct Position {
    pub low: u64,
    pub cost: u64,
    pub high: u64,
    pub looked: u64,
}

// A step as an index.
pub fn step_index(k: u8) -> usize
    ensures { result ≡ k }
{
    k as usize
}

// One step by the action that row `from` opens. Where it doesn't apply, how many literals were looked at, those of its precondition
// among them.
pub fn step(rows: &Rows, from: usize, p: Position) -> Result<Position, u64>
    requires rows { (from < length rows.now.marks.now) × Roomy p }
    requires some_action { SomeAction rows.now.marks.now rows.now.values.now from }
    ensures little { Little p result }
    ensures step_answer { (t : Task) (k : ℕ) → ActionAt rows.now.marks.now rows.now.values.now from t k → StepAnswer t k p result }
{
    let s = State {
        low: p.low,
        high: p.high,
    };
    let pre = conditions::condition(rows, from + 1, s);
    let looked = p.looked + (pre.looked as u64);
    if !pre.holds {
        return Err(looked);
    }
    let next = effects::after(rows, pre.next, s);
    Ok(Position {
        low: next.low,
        high: next.high,
        cost: p.cost + (rows.value(from) as u64),
        looked: looked + (next.looked as u64),
    })
}

// The verdict after the last step, by monitors that have seen the states before it.
fn finish(rows: &Rows, places: Places, p: Position, ms: &mut [u8]) -> Walked
    requires rows { (places.preferences ≤ length rows.now.marks.now) × Roomy p × (length ms.old ≡ MAX_PREFERENCES) }
    requires end { (t : Task) × (μ : Monitors) × End rows.now.marks.now rows.now.values.now places ms.old t μ }
    ensures { (t : Task) (μ : Monitors) → End rows.now.marks.now rows.now.values.now places ms.old t μ → EndAnswer t μ p result }
{
    let s = State {
        low: p.low,
        high: p.high,
    };
    let seen = monitors::watch(rows, places.preferences, s, true, &mut *ms);
    let g = conditions::condition(rows, places.goal, s);
    let looked = p.looked + (seen as u64) + (g.looked as u64);
    if !g.holds {
        return Walked {
            verdict: Verdict::GoalMissed,
            looked,
        };
    }
    let found = met::find(rows.marks, places.preferences, &*ms);
    if found.kept < found.number {
        return Walked {
            verdict: Verdict::RuleMissed(found.kept),
            looked,
        };
    }
    let ones = found.met;
    let solution = Solution {
        cost: p.cost,
        met: ones.low,
    };
    Walked {
        verdict: Verdict::Solved(solution),
        looked,
    }
}

// The position with so many more literals looked at.
fn looked_on(p: Position, n: usize) -> Position
    requires { (p.looked < AMPLE) × (n ≤ MAX_PREFERENCES * MOST_LOOKED) }
    ensures { (state_of result ≡ state_of p) × (result.cost ≡ p.cost) × (result.looked ≡ p.looked + n) }
{
    Position {
        low: p.low,
        high: p.high,
        cost: p.cost,
        looked: p.looked + (n as u64),
    }
}

// The verdict on a plan of known steps, from the opening state on, by fresh monitors. `starts` has the rows of the actions.
fn follow(
    rows: &Rows,
    places: Places,
    starts: &[usize],
    s: State,
    plan: &[u8],
    ms: &mut [u8],
) -> Walked
    requires rows { (length plan.now ≤ MAX_STEPS) × (places.preferences ≤ length rows.now.marks.now) }
    requires all_below { AllBelow (length rows.now.marks.now) starts.now × AllBelow (length starts.now) plan.now × AllFresh ms.old }
    requires start { (t : Task) × Start rows.now.marks.now rows.now.values.now places starts.now s t }
    ensures { (t : Task) → Start rows.now.marks.now rows.now.values.now places starts.now s t → PlanAnswer t plan.now result }
{
    let mut p = Position {
        low: s.low,
        high: s.high,
        cost: 0,
        looked: 0,
    };
    for i in 0..plan.len() {
        let here = State {
            low: p.low,
            high: p.high,
        };
        let seen = monitors::watch(rows, places.preferences, here, false, &mut *ms);
        let moved = step(rows, starts[step_index(plan[i])], looked_on(p, seen));
        match moved {
            Ok(q) => {
                p = q;
            }
            Err(looked) => {
                return Walked {
                    verdict: Verdict::Stopped(i),
                    looked,
                };
            }
        }
    }
    finish(rows, places, p, &mut *ms)
}

// The verdict on a plan of known steps.
pub fn run(rows: &Rows, plan: &[u8]) -> Walked
    requires rows { (length plan.now ≤ MAX_STEPS) × Spelled rows.now.marks.now rows.now.values.now }
    requires marks_len_bound { (length (actions_from 0 rows.now.marks.now) ≤ MAX_ACTIONS) × AllBelow (length (actions_from 0 rows.now.marks.now)) plan.now }
    ensures { (t : Task) → Spells rows.now.marks.now rows.now.values.now t → PlanAnswer t plan.now result }
{
    let start = opening::opening(rows);
    let goal = start.next + 1;
    let preferences = actions::first_preference(rows.marks);
    let mut table: [usize; limits::MAX_ACTIONS] = [0; limits::MAX_ACTIONS];
    let many = actions::note_actions(rows.marks, &mut table);
    let mut ms: [u8; limits::MAX_PREFERENCES] = [0; limits::MAX_PREFERENCES];
    follow(
        rows,
        Places { preferences, goal },
        &table[0..many],
        start.state,
        plan,
        &mut ms,
    )
}
