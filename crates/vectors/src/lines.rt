// Parts of the lines that are written about vectors.
use settling::Worth;
use std::io;

// Writes words and a number after them.
pub fn write_amount(rt: &impl Print, words: &str, n: u64) -> io::Result<()> {
    print!(rt; "{words}{n}")
}

// Writes metric and utility, and ends the line.
pub fn write_worth(rt: &impl Print, w: Worth) -> io::Result<()> {
    write_amount(rt, "metric ", w.metric)?;
    rt.write_all(b" utility ")?;
    let mut utility = [0u8; 64];
    let k = text::put_integer(&mut utility, 0, w.utility);
    rt.write_all(text::front(&utility, k))?;
    rt.write_all(b"\n")
}
