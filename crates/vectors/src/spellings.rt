// Spells tasks, where a task's record comes before the area that is lent for its spelling. Of each it writes a line, `spelled` and
// the length, or `refused`, number and place; then the bytes of the area, as they are after the call, and a newline.
use super::{ROOM, lines};
use std::io;
use std::io::Read;

// Spells a task, and writes the answer and the area.
fn spell_into(rt: &impl Print, file: &[u8], area: &mut [u8]) -> io::Result<()> {
    match spelling::spell(file, &mut *area) {
        Ok(k) => {
            lines::write_amount(rt, "spelled ", k as u64)?;
            rt.write_all(b"\n")?;
        }
        Err(f) => files::say_refused(rt, f)?,
    }
    rt.write_all(&*area)?;
    rt.write_all(b"\n")
}

// Spells a task into an area of so many bytes, the first of a buffer, and answers whether it has them.
fn spell_front(rt: &impl Print, file: &[u8], buf: &mut [u8], room: usize) -> io::Result<bool> {
    if buf.len() < room {
        return Ok(false);
    }
    spell_into(rt, file, &mut buf[..room])?;
    Ok(true)
}

// Spells the next task, and answers whether there was one.
pub fn spell_next(rt: &impl Print, vectors: &mut impl Read) -> io::Result<bool> {
    let mut task = [0u8; ROOM];
    let mut area = [0u8; ROOM];
    let Some((n, room)) = records::next_two(vectors, &mut task, &mut area) else {
        return Ok(false);
    };
    spell_front(rt, text::front(&task, n), &mut area, room)
}
