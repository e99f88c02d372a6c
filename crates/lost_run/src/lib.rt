// A list of translated actions, followed on the rows of its source: its state, the monitors of its rules, and which rules are closed.
#![tactic(auto)]

mod rules;
mod taking;

ghost use Rattle.std.specs.Prelude.{◌≤◌, length};
ghost use Rattle.meaning.specs.Task.{Task};
ghost use Rattle.task.specs.Limits.{MAX_ACTIONS, MAX_STEPS};
ghost use Rattle.layout.specs.Actions.{actions_from, AllBelow};
ghost use Rattle.plan.specs.Steps.{AllFresh};
ghost use Rattle.lost_run.specs.Run.{Setting, Opens, Source, RunAs};

use layout::{actions, sides};
use plan::steps;
use reading::opening;
use state::State;
use taking::Place;
use task::limits;
use task::rows::Rows;

// The cost so far and the lost weights.
#[derive(Clone, Copy)]
pub struct Amounts {
    pub cost: u64,
    pub lost: u64,
}

// Stopped has the first step that doesn't apply.
#[derive(Clone, Copy)]
pub enum Run {
    Made(Amounts),
    Stopped(usize),
}

// What a list comes to, from the opening state on, by fresh monitors. `starts` has the rows of the actions, `rules` those of the rules,
// the first of which is row `at`.
fn follow(
    rows: &Rows,
    at: usize,
    starts: &[usize],
    rules: &[usize],
    s: State,
    list: &[u8],
    ms: &mut [u8],
) -> Run
    requires rows { (length list.now ≤ MAX_STEPS) × AllFresh ms.old }
    requires all_below { AllBelow (length rows.now.marks.now) starts.now
        × ((t : Task) × Setting rows.now.marks.now rows.now.values.now at starts.now rules.now t × Opens s t) }
    ensures { (t : Task) → Setting rows.now.marks.now rows.now.values.now at starts.now rules.now t
        → Opens s t → RunAs t list.now result }
{
    let mut p = Place {
        state: s,
        cost: 0,
        running: true,
        closed: 0,
    };
    for i in 0..list.len() {
        let taken = taking::take(
            rows,
            at,
            starts,
            rules,
            steps::step_index(list[i]),
            p,
            &mut *ms,
        );
        match taken {
            Some(q) => {
                p = q;
            }
            None => {
                return Run::Stopped(i);
            }
        }
    }
    Run::Made(Amounts {
        cost: p.cost,
        lost: rules::lost(rows, rules, p.closed, &*ms),
    })
}

// What a list comes to on the task that the rows spell, with so many rules.
pub fn run_list(rows: &Rows, many: usize, list: &[u8]) -> Run
    requires rows { (length list.now ≤ MAX_STEPS) × (length (actions_from 0 rows.now.marks.now) ≤ MAX_ACTIONS) }
    requires source { (t : Task) × Source rows.now.marks.now rows.now.values.now many t }
    ensures { (t : Task) → Source rows.now.marks.now rows.now.values.now many t → RunAs t list.now result }
{
    let start = opening::opening(rows);
    let at = actions::first_preference(rows.marks);
    let mut starts: [usize; limits::MAX_ACTIONS] = [0; limits::MAX_ACTIONS];
    let acting = actions::note_actions(rows.marks, &mut starts);
    let mut table: [usize; limits::MAX_PREFERENCES] = [0; limits::MAX_PREFERENCES];
    sides::note_starts(rows.marks, at, many, &mut table);
    let mut ms: [u8; limits::MAX_PREFERENCES] = [0; limits::MAX_PREFERENCES];
    follow(
        rows,
        at,
        &starts[0..acting],
        &table[0..many],
        start.state,
        list,
        &mut ms,
    )
}
