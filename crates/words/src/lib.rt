// What each operation answers to callers in C and Rust: the number that a function returns, and eight words, or 24 of a week.
#![tactic(auto)]

ghost use Rattle.std.specs.Prelude.{◌≡◌, ◌<◌, ◌≤◌, get_or, take, Some, Ok};
ghost use Rattle.task.specs.Limits.{MAX_PREFERENCES};
ghost use Rattle.plan.specs.Answers.{as_verdict};
ghost use Rattle.settling.specs.Answers.{settled_as};
ghost use Rattle.plan.specs.declared.Verdict.TheVariants.{Solved};
ghost use Rattle.lost_run.specs.Run.{run_as};
ghost use Rattle.weekly.specs.Answers.{figures_as};
ghost use Rattle.words.specs.Numbers.{call, refusal_in, answered, of_verdict, of_settle, of_figures, of_lost, of_sought};
ghost use Rattle.words.specs.Told.{of_result, of_sizes, of_length, of_lengths, of_walked, of_worth, of_reckoned, of_run, of_end};

use finding::Sought;
use lost_run::Run;
use pddl_text::Lengths;
use plan::{Solution, Verdict, Walked};
use refusals::{Numbered, Told};
use settling::Worth;
use task::{Sizes, limits};
use weekly::Amounts;

// Word 1 of a verdict.
const SOLVED: u64 = 1;

const STOPPED: u64 = 2;

const GOAL_MISSED: u64 = 3;

const RULE_MISSED: u64 = 4;

// Word 1 of a list whose every step applies; one that stops has STOPPED.
const RUN: u64 = 1;

// Word 1 of a search.
const FOUND: u64 = 1;

const NONE: u64 = 2;

const FULL: u64 = 3;

// Writes a refusal into an answer of N words, and returns its number.
fn put_refusal<const N: usize>(f: Numbered, answer: &mut [u64; N]) -> u32
    requires { 1 ≤ N }
    ensures { call result answer.new ≡ refusal_in N f.number f.place }
{
    answer.fill(0);
    answer[0] = f.place as u64;
    f.number as u32
}

// Writes up to six values of an answer that is no refusal.
fn put_values(answer: &mut [u64; 8], a: u64, b: u64, c: u64, d: u64, e: u64, f: u64) -> u32
    ensures { call result answer.new ≡ answered a b c d e f 0 }
{
    *answer = [0, a, b, c, d, e, f, 0];
    0
}

pub fn put_checked<E: Told>(c: Result<Sizes, E>, answer: &mut [u64; 8]) -> u32
    ensures { call result answer.new ≡ of_result 8 of_sizes E.told c }
{
    match c {
        Ok(z) => put_values(
            answer,
            z.facts as u64,
            z.actions as u64,
            z.preferences as u64,
            z.rows as u64,
            0,
            0,
        ),
        Err(f) => put_refusal(f.told(), answer),
    }
}

pub fn put_outcome<E: Told>(o: Result<usize, E>, answer: &mut [u64; 8]) -> u32
    ensures { call result answer.new ≡ of_result 8 of_length E.told o }
{
    match o {
        Ok(n) => put_values(answer, n as u64, 0, 0, 0, 0, 0),
        Err(f) => put_refusal(f.told(), answer),
    }
}

pub fn put_texts<E: Told>(o: Result<Lengths, E>, answer: &mut [u64; 8]) -> u32
    ensures { call result answer.new ≡ of_result 8 of_lengths E.told o }
{
    match o {
        Ok(n) => put_values(answer, n.domain as u64, n.problem as u64, 0, 0, 0, 0),
        Err(f) => put_refusal(f.told(), answer),
    }
}

fn put_solution(s: Solution, looked: u64, answer: &mut [u64; 8]) -> u32
    ensures { call result answer.new ≡ of_verdict (as_verdict (Solved s)) looked }
{
    put_values(answer, SOLVED, 0, s.cost, s.met, looked, 0)
}

// Writes a verdict, and how many literals were looked at.
fn put_verdict(v: Verdict, looked: u64, answer: &mut [u64; 8]) -> u32
    ensures { call result answer.new ≡ of_verdict (as_verdict v) looked }
{
    match v {
        Verdict::Solved(s) => put_solution(s, looked, answer),
        Verdict::Stopped(step) => put_values(answer, STOPPED, step as u64, 0, 0, looked, 0),
        Verdict::GoalMissed => put_values(answer, GOAL_MISSED, 0, 0, 0, looked, 0),
        Verdict::RuleMissed(rule) => put_values(answer, RULE_MISSED, rule as u64, 0, 0, looked, 0),
    }
}

pub fn put_walked<E: Told>(w: Result<Walked, E>, answer: &mut [u64; 8]) -> u32
    ensures { call result answer.new ≡ of_result 8 of_walked E.told w }
{
    match w {
        Ok(x) => put_verdict(x.verdict, x.looked, answer),
        Err(f) => put_refusal(f.told(), answer),
    }
}

// Writes metric and utility, which may be below 0.
fn put_worth(w: Worth, answer: &mut [u64; 8]) -> u32
    ensures { call result answer.new ≡ of_settle (settled_as (Ok w)) }
{
    put_values(answer, w.metric, w.utility.cast_unsigned(), 0, 0, 0, 0)
}

pub fn put_settled<E: Told>(s: Result<Worth, E>, answer: &mut [u64; 8]) -> u32
    ensures { call result answer.new ≡ of_result 8 of_worth E.told s }
{
    match s {
        Ok(w) => put_worth(w, answer),
        Err(f) => put_refusal(f.told(), answer),
    }
}

// How many plans meet preference k, of so many preferences; 0 where there is none.
fn count_at(meeting: &[u64; limits::MAX_PREFERENCES], preferences: usize, k: usize) -> u64
    requires { k < MAX_PREFERENCES }
    ensures { result ≡ get_or (take preferences meeting.now) k 0 }
{
    if k < preferences { meeting[k] } else { 0 }
}

fn put_amounts(a: Amounts, answer: &mut [u64; 24]) -> u32
    ensures { call result answer.new ≡ of_figures (figures_as (Some a)) }
{
    *answer = [0; 24];
    answer[1] = a.solving;
    answer[2] = a.least;
    answer[3] = a.greatest;
    answer[4] = a.sum;
    answer[5] = a.mean;
    answer[6] = a.remainder;
    for k in 0..limits::MAX_PREFERENCES {
        answer[8 + k] = count_at(&a.meeting, a.preferences, k);
    }
    0
}

pub fn put_week<E: Told>(r: Result<Option<Amounts>, E>, answer: &mut [u64; 24]) -> u32
    ensures { call result answer.new ≡ of_result 24 of_reckoned E.told r }
{
    match r {
        Ok(Some(a)) => put_amounts(a, answer),
        Ok(None) => {
            *answer = [0; 24];
            0
        }
        Err(f) => put_refusal(f.told(), answer),
    }
}

// Writes what a list of translated actions comes to.
fn put_run(x: Run, answer: &mut [u64; 8]) -> u32
    ensures { call result answer.new ≡ of_lost (run_as x) }
{
    match x {
        Run::Made(a) => put_values(answer, RUN, 0, a.cost, a.lost, 0, 0),
        Run::Stopped(step) => put_values(answer, STOPPED, step as u64, 0, 0, 0, 0),
    }
}

pub fn put_losses<E: Told>(l: Result<Run, E>, answer: &mut [u64; 8]) -> u32
    ensures { call result answer.new ≡ of_result 8 of_run E.told l }
{
    match l {
        Ok(x) => put_run(x, answer),
        Err(f) => put_refusal(f.told(), answer),
    }
}

// Writes what a search comes to, and how many nodes were kept.
fn put_found(s: Sought, answer: &mut [u64; 8]) -> u32
    ensures { call result answer.new ≡ of_sought (Ok s) }
{
    match s {
        Sought::Found(r, n) => put_values(answer, FOUND, r.cost, r.steps as u64, n as u64, 0, 0),
        Sought::NoPlan(n) => put_values(answer, NONE, 0, 0, n as u64, 0, 0),
        Sought::Full(n) => put_values(answer, FULL, 0, 0, n as u64, 0, 0),
    }
}

pub fn put_sought<E: Told>(s: Result<Sought, E>, answer: &mut [u64; 8]) -> u32
    ensures { call result answer.new ≡ of_result 8 of_end E.told s }
{
    match s {
        Ok(x) => put_found(x, answer),
        Err(f) => put_refusal(f.told(), answer),
    }
}
