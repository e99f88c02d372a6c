// Walks plans, where a task's record comes before its plan's. Of each it writes a line: the verdict, of a plan that solves with the
// cost and the met preferences, and the literals looked at; or `refused`, number and place.
use super::{ROOM, lines};
use plan::{Verdict, Walked};
use std::io;
use std::io::Read;
use task::Refusal;

fn write_verdict(rt: &impl Print, v: Verdict) -> io::Result<()> {
    match v {
        Verdict::Solved(s) => {
            lines::write_amount(rt, "solved cost ", s.cost)?;
            lines::write_amount(rt, " met ", s.met)
        }
        Verdict::Stopped(i) => lines::write_amount(rt, "stopped ", i as u64),
        Verdict::GoalMissed => rt.write_all(b"goal missed"),
        Verdict::RuleMissed(i) => lines::write_amount(rt, "rule missed ", i as u64),
    }
}

fn write_walked(rt: &impl Print, walked: Result<Walked, Refusal>) -> io::Result<()> {
    match walked {
        Ok(w) => {
            write_verdict(rt, w.verdict)?;
            lines::write_amount(rt, " literals ", w.looked)?;
            rt.write_all(b"\n")
        }
        Err(f) => files::say_refused(rt, f),
    }
}

// Walks the next plan, and answers whether there was one.
pub fn walk_next(rt: &impl Print, vectors: &mut impl Read) -> io::Result<bool> {
    let mut task = [0u8; ROOM];
    let mut plan = [0u8; ROOM];
    let Some((n, m)) = records::next_two(vectors, &mut task, &mut plan) else {
        return Ok(false);
    };
    write_walked(rt, plan::walk(text::front(&task, n), text::front(&plan, m)))?;
    Ok(true)
}
