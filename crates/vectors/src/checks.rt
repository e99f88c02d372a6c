// Checks each record as a task file, and writes a line with the answer: `accepted` and the four sizes, or `refused`,
// number and place.
use super::{ROOM, lines};
use std::io;
use std::io::Read;
use task::Sizes;

fn write_accepted(rt: &impl Print, z: Sizes) -> io::Result<()> {
    lines::write_amount(rt, "accepted ", z.facts as u64)?;
    lines::write_amount(rt, " ", z.actions as u64)?;
    lines::write_amount(rt, " ", z.preferences as u64)?;
    lines::write_amount(rt, " ", z.rows as u64)?;
    rt.write_all(b"\n")
}

// Checks the next record, and answers whether there was one.
pub fn check_next(rt: &impl Print, vectors: &mut impl Read) -> io::Result<bool> {
    let mut buf = [0u8; ROOM];
    let Some(n) = records::next_record(vectors, &mut buf) else {
        return Ok(false);
    };
    match task::check(text::front(&buf, n)) {
        Ok(z) => write_accepted(rt, z)?,
        Err(f) => files::say_refused(rt, f)?,
    }
    Ok(true)
}
