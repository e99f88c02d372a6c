// Reads, walks and settles texts, where a task's record comes before its text's. Of each it writes `read` and the number of
// steps, and then the plan as text again, or `refused`, number and place; then a line with what the text is worth on the task.
use super::{ROOM, lines};
use plan::{Solution, Verdict};
use std::io;
use std::io::Read;
use task::limits;

// Writes what a plan that solves costs, its metric and its utility.
fn write_solution(rt: &impl Print, file: &[u8], s: Solution) -> io::Result<()> {
    match settling::settle(file, s.cost, s.met) {
        Ok(w) => {
            lines::write_amount(rt, "solved cost ", s.cost)?;
            rt.write_all(b" ")?;
            lines::write_worth(rt, w)
        }
        Err(f) => files::say_refused(rt, f),
    }
}

fn write_verdict(rt: &impl Print, file: &[u8], v: Verdict) -> io::Result<()> {
    match v {
        Verdict::Solved(s) => write_solution(rt, file, s),
        Verdict::Stopped(i) => {
            lines::write_amount(rt, "stopped ", i as u64)?;
            rt.write_all(b"\n")
        }
        Verdict::GoalMissed => rt.write_all(b"goal missed\n"),
        Verdict::RuleMissed(i) => {
            lines::write_amount(rt, "rule missed ", i as u64)?;
            rt.write_all(b"\n")
        }
    }
}

// Writes a plan as text.
fn write_plan(rt: &impl Print, plan: &[u8]) -> io::Result<()> {
    let mut out = [0u8; ROOM];
    let written = plan_text::write(plan, &mut out);
    files::say_written(rt, written, &out)
}

// Reads a text, and writes what that answers and the plan.
fn write_read(rt: &impl Print, text: &[u8]) -> io::Result<()> {
    let mut steps = [0u8; limits::MAX_STEPS];
    match plan_text::read(text, &mut steps) {
        Ok(k) => {
            lines::write_amount(rt, "read ", k as u64)?;
            rt.write_all(b"\n")?;
            write_plan(rt, text::front(&steps, k))
        }
        Err(f) => files::say_refused(rt, f),
    }
}

// Reads, walks and settles the next text, and answers whether there was one.
pub fn walk_next(rt: &impl Print, vectors: &mut impl Read) -> io::Result<bool> {
    let mut task = [0u8; ROOM];
    let mut text = [0u8; limits::MAX_TEXT + 1];
    let Some((n, m)) = records::next_two(vectors, &mut task, &mut text) else {
        return Ok(false);
    };
    write_read(rt, text::front(&text, m))?;
    let file = text::front(&task, n);
    match plan_text::walk_text(file, text::front(&text, m)) {
        Ok(walked) => write_verdict(rt, file, walked.verdict)?,
        Err(f) => files::say_refused(rt, f)?,
    }
    Ok(true)
}
