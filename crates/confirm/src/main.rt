// Program confirm: finds what the plan in the file `planned`, which a planner printed for the translation of the task in the file `task`,
// comes to: program judge's lines about its source part, and what the planner paid, held to the metric in them.
#![tactic(auto)]

use plan::Verdict;
use std::io;
use task::limits;

// Prints the report of a plan on a task: one line where it does not solve.
fn say_report(rt: &impl Print, task: &[u8], plan: &[u8]) -> io::Result<()> {
    let mut out = [0u8; report::MAX_REPORT];
    let written = report::write_report(task, plan, &mut out);
    files::say_written(rt, written, &out)
}

// Prints what the planner paid for a plan, and where that is not its metric, what it is worth.
fn say_paid(rt: &impl Print, task: &[u8], plan: &[u8], cost: u64) -> io::Result<()> {
    let mut out = [0u8; paid_line::MAX_LINE];
    let n = paid_line::put_paid(task, plan, cost, &mut out);
    rt.write_all(text::front(&out, n))
}

// Prints what is said of a list that solves the translation at a cost: the report on its source part, and that cost, which by
// paid_in_full of paid_line is its metric.
fn confirm(rt: &impl Print, task: &[u8], planned: &[u8], cost: u64) -> io::Result<()> {
    let mut plan = [0u8; limits::MAX_STEPS];
    match source::source(task, planned, &mut plan) {
        Ok(n) => {
            say_report(rt, task, text::front(&plan, n))?;
            say_paid(rt, task, text::front(&plan, n), cost)
        }
        Err(f) => files::say_refused(rt, f),
    }
}

// Prints where a list stops in the translation, or that it misses the goal there.
fn deny(rt: &impl Print, compiled: &[u8], planned: &[u8]) -> io::Result<()> {
    let mut list = [0u8; limits::MAX_STEPS];
    match plan_text::read(planned, &mut list) {
        Ok(n) => say_report(rt, compiled, text::front(&list, n)),
        Err(f) => files::say_refused(rt, f),
    }
}

// Walks what the planner printed on the translation of the task.
fn walk(rt: &impl Print, task: &[u8], planned: &[u8], compiled: &[u8]) -> io::Result<()> {
    match plan_text::walk_text(compiled, planned) {
        Ok(walked) => match walked.verdict {
            Verdict::Solved(solution) => confirm(rt, task, planned, solution.cost),
            _ => deny(rt, compiled, planned),
        },
        Err(f) => files::say_refused(rt, f),
    }
}

fn main(rt: HostRuntime) -> io::Result<()> {
    // The buffers have room for more than any accepted file and any text that is read, so that a longer one gets the answer of the whole
    // file.
    let mut task = [0u8; files::LARGE];
    let mut planned = [0u8; limits::MAX_TEXT + 1];
    let of_task = files::read(&rt, b"task", &mut task);
    let of_planned = files::read(&rt, b"planned", &mut planned);
    let (Some(n), Some(m)) = (of_task, of_planned) else {
        return files::say_missing(&rt);
    };
    let mut compiled = [0u8; files::LARGE];
    match translation::translate(text::front(&task, n), &mut compiled) {
        Ok(k) => walk(
            &rt,
            text::front(&task, n),
            text::front(&planned, m),
            text::front(&compiled, k),
        ),
        Err(f) => files::say_refused(&rt, f),
    }
}
