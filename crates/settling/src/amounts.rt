// What a solution is worth, from its cost and the preferences that it meets.
ghost use Rattle.std.specs.Prelude.{◌≡◌, false, ℕ, ◌+◌, ◌≤◌, ◌<◌, pos, ◌-ℤ◌, length, get_or};
ghost use Rattle.task.specs.TaskRows.{row};
ghost use Rattle.task.specs.File.{opens_preference};
ghost use Rattle.task.specs.Limits.{MAX_PREFERENCES};
ghost use Rattle.task.specs.Rows.{MarksTo};
ghost use Rattle.state.specs.Member.{bit};
ghost use Rattle.settling.specs.Settled.{arguments_allowed};
ghost use Rattle.layout.specs.Counting.{counting, count_at, AMPLE};
ghost use Rattle.settling.specs.Amounts.{Room, nothing, weighed, as_weights};

use super::Worth;
use task::rows::Rows;
use task::{limits, marks};

// So many preferences: the weights of those that are met, and of the others.
#[derive(Clone, Copy)]
pub struct Weights {
    pub number: u32,
    pub met: u64,
    pub missed: u64,
}

// Whether the cost is small enough, and each met preference one of so many.
pub fn arguments_allowed(preferences: usize, cost: u64, met: u64) -> bool
    requires { preferences ≤ MAX_PREFERENCES }
    ensures { result ≡ arguments_allowed preferences cost (bit met) }
{
    (cost <= limits::MAX_COST) & (met >> preferences == 0)
}

// One preference more.
fn weigh_one(t: Weights, weight: u32, met: u64) -> Weights
    requires { Room t }
    ensures by_index { (m : ℕ) → as_weights result ≡ weighed (bit met) (as_weights t) (row m weight) }
    ensures number_bound { (result.number ≤ t.number + 1) × (result.met ≤ t.met + weight) × (result.missed ≤ t.missed + weight) }
{
    let k = t.number;
    let w = weight as u64;
    if super::is_met(met, k) {
        Weights {
            number: k + 1,
            met: t.met + w,
            missed: t.missed,
        }
    } else {
        Weights {
            number: k + 1,
            met: t.met,
            missed: t.missed + w,
        }
    }
}

// One row more: each that opens a preference counts.
fn weigh_row(t: Weights, mark: u8, value: u32, met: u64) -> Weights
    requires { Room t }
    ensures result_value { as_weights result ≡ counting (weighed (bit met)) (as_weights t) (row mark value) }
    ensures number_bound { (result.number ≤ t.number + 1) × (result.met ≤ t.met + value) × (result.missed ≤ t.missed + value) }
{
    if task::is_preference(mark) {
        weigh_one(t, value, met)
    } else {
        t
    }
}

// The bits of four marks from row i on: none of the marks is greater.
fn four_marks(marks: &[u8], i: usize) -> u8
    requires { MarksTo (i + 4) marks.now }
    ensures { (k : ℕ) → i ≤ k → k < i + 4 → get_or marks.now k 0 ≤ result }
{
    marks[i] | marks[i + 1] | marks[i + 2] | marks[i + 3]
}

// Passes rows that open no preference, eight at a time: all their marks are below GOAL.
fn past_others(marks: &[u8], from: usize) -> usize
    requires { MarksTo from marks.now }
    ensures lower_bound { (from ≤ result) × (result ≤ length marks.now) }
    ensures by_index { (k : ℕ) → from ≤ k → k < result → opens_preference (get_or marks.now k 0) ≡ false }
{
    let mut i = from;
    while i + 8 <= marks.len() {
        if marks::GOAL <= four_marks(marks, i) | four_marks(marks, i + 4) {
            return i;
        }
        i += 8;
    }
    i
}

// The preferences of a task, by the met ones.
pub fn weigh(rows: &Rows, met: u64) -> Weights
    ensures result_value { as_weights result ≡ count_at (weighed (bit met)) nothing rows.now.marks.now rows.now.values.now 0 }
    ensures met_bound { (result.met < AMPLE) × (result.missed < AMPLE) }
{
    let mut t = Weights {
        number: 0,
        met: 0,
        missed: 0,
    };
    let mut i = past_others(rows.marks, 0);
    while i < rows.marks.len() {
        t = weigh_row(t, rows.marks[i], rows.value(i), met);
        i = past_others(rows.marks, i + 1);
    }
    t
}

// The amounts of a solution.
pub fn worth(cost: u64, t: Weights) -> Worth
    requires { (cost < AMPLE) × (t.met < AMPLE) × (t.missed < AMPLE) }
    ensures { (result.metric ≡ cost + t.missed) × (result.utility ≡ pos t.met -ℤ pos cost) }
{
    Worth {
        metric: cost + t.missed,
        utility: (t.met as i64) - (cost as i64),
    }
}
