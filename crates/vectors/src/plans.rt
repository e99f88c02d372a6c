// Reports on plans, where a task's record comes before its plan's.
use super::ROOM;
use std::io;
use std::io::Read;

fn write_report(rt: &impl Print, file: &[u8], plan: &[u8]) -> io::Result<()> {
    let mut out = [0u8; report::MAX_REPORT];
    let written = report::write_report(file, plan, &mut out);
    files::say_written(rt, written, &out)
}

// Writes the report on the next plan, and answers whether there was one.
pub fn report_next(rt: &impl Print, vectors: &mut impl Read) -> io::Result<bool> {
    let mut task = [0u8; ROOM];
    let mut plan = [0u8; ROOM];
    let Some((n, m)) = records::next_two(vectors, &mut task, &mut plan) else {
        return Ok(false);
    };
    write_report(rt, text::front(&task, n), text::front(&plan, m))?;
    Ok(true)
}
