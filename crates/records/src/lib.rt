// A file of test vectors: records one after the other, each a little-endian length of 32 bits and then that many bytes.
#![tactic(auto)]

ghost use Rattle.std.specs.Prelude.{Some, IfSome};
ghost use Rattle.records.specs.Records.{Filled};

use std::io::Read;

// Reads the n bytes of a record, where the buffer has room for them.
fn read_body(file: &mut impl Read, buf: &mut [u8], n: usize) -> Option<usize>
    ensures { Filled result buf.old buf.new }
{
    if buf.len() < n {
        return None;
    }
    file.read_exact(&mut buf[..n]).ok()?;
    Some(n)
}

// Reads the next record into the start of the buffer, and answers how many bytes it has. There is none at the end of the file, where the
// file ends inside the record, where a read fails, and where the record is longer than the buffer.
pub fn next_record(file: &mut impl Read, buf: &mut [u8]) -> Option<usize>
    ensures { Filled result buf.old buf.new }
{
    let mut length = [0u8; 4];
    file.read_exact(&mut length).ok()?;
    read_body(file, buf, u32::from_le_bytes(length) as usize)
}

// Reads the next two records into the starts of two buffers, and answers how many bytes they have, where both are there.
pub fn next_two(file: &mut impl Read, a: &mut [u8], b: &mut [u8]) -> Option<(usize, usize)>
    ensures { IfSome result (λ n. Filled (Some n.0) a.old a.new × Filled (Some n.1) b.old b.new) }
{
    let n = next_record(&mut *file, a)?;
    let m = next_record(file, b)?;
    Some((n, m))
}
