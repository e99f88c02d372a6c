// Settles costs and met preferences, where a task's record comes before theirs: 16 bytes, the cost and then the met preferences
// as bits, each a number of 64 bits with its lowest byte first. Of each it writes a line: `metric` and `utility`, or `refused`,
// number and place.
use super::{ROOM, lines};
use std::io;
use std::io::Read;

// Settles a cost and met preferences, and writes what that comes to.
fn settle(rt: &impl Print, file: &[u8], amounts: &[u8; 16]) -> io::Result<()> {
    let mut cost = [0u8; 8];
    let mut met = [0u8; 8];
    cost.copy_from_slice(&amounts[..8]);
    met.copy_from_slice(&amounts[8..]);
    match settling::settle(file, u64::from_le_bytes(cost), u64::from_le_bytes(met)) {
        Ok(w) => lines::write_worth(rt, w),
        Err(f) => files::say_refused(rt, f),
    }
}

// Settles the next cost and met preferences, and answers whether there were any.
pub fn settle_next(rt: &impl Print, vectors: &mut impl Read) -> io::Result<bool> {
    let mut task = [0u8; ROOM];
    let mut amounts = [0u8; 16];
    let Some((n, m)) = records::next_two(vectors, &mut task, &mut amounts) else {
        return Ok(false);
    };
    if m < 16 {
        return Ok(false);
    }
    settle(rt, text::front(&task, n), &amounts)?;
    Ok(true)
}
