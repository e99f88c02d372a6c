// Words and numbers, written as text into a lent area. What does not fit is dropped: each function answers the place
// after what it was to write, so that a place beyond the area's length says how much was missing.
#![tactic(auto)]

ghost use Rattle.std.specs.Prelude.{◌≡◌, [], ◌∷◌, ◌++◌, ◌+◌, ◌^◌, ◌≤◌, ◌<◌, length, take};
ghost use Rattle.text.specs.Text.{decimal, integer, refused_line};
ghost use Rattle.text.specs.Area.{written, Wrote};

// The first n elements of an area, or all where it has no more. Unlike `&area[..n]` it asks the caller for no proof.
pub fn front<T>(area: &[T], n: usize) -> &[T]
    ensures { result.now ≡ take n area.now }
{
    if n <= area.len() { &area[..n] } else { area }
}

// Writes one byte.
pub fn put_byte(out: &mut [u8], at: usize, byte: u8) -> usize
    requires { at + 1 < 2 ^ 64 }
    ensures { Wrote out.old at (byte ∷ []) result out.new }
{
    if at < out.len() {
        out[at] = byte;
    }
    at + 1
}

// Copies a word, for which there is room. The library's copy would have the archive for C call memmove, and a short word be tested for
// an overlap.
fn copy_bytes(out: &mut [u8], at: usize, word: &[u8])
    requires { at + length word.now ≤ length out.old }
    ensures { out.new ≡ written word.now at out.old }
{
    for i in 0..word.len() {
        out[at + i] = word[i];
    }
}

// Writes the bytes of a word one by one, those that fit. It goes through the whole word: in a caller whose word is written out
// the turns are then known, and the compiler needs no copy of the word in memory.
fn put_each(out: &mut [u8], at: usize, word: &[u8]) -> usize
    requires { at + length word.now < 2 ^ 64 }
    ensures { Wrote out.old at word.now result out.new }
{
    let mut k = at;
    for byte in word {
        k = put_byte(&mut *out, k, *byte);
    }
    k
}

// Writes the bytes of a word: all at once where there is room, else those that fit.
pub fn put_bytes(out: &mut [u8], at: usize, word: &[u8]) -> usize
    requires { at + length word.now < 2 ^ 64 }
    ensures { Wrote out.old at word.now result out.new }
{
    let end = at + word.len();
    if end <= out.len() {
        copy_bytes(&mut *out, at, word);
        return end;
    }
    put_each(out, at, word)
}

// Writes a number below 100 in decimal.
fn put_two(out: &mut [u8], at: usize, n: u32) -> usize
    requires { (at + 20 < 2 ^ 64) × (n < 100) }
    ensures { Wrote out.old at (decimal n) result out.new }
{
    if n < 10 {
        put_byte(out, at, b'0' + n as u8)
    } else {
        let k = put_byte(&mut *out, at, b'0' + (n / 10) as u8);
        put_byte(out, k, b'0' + (n % 10) as u8)
    }
}

// Writes a number below 1,000 in decimal.
fn put_three(out: &mut [u8], at: usize, n: u32) -> usize
    requires { (at + 20 < 2 ^ 64) × (n < 1000) }
    ensures { Wrote out.old at (decimal n) result out.new }
{
    if n < 100 {
        put_two(out, at, n)
    } else {
        let k = put_two(&mut *out, at, n / 10);
        put_byte(out, k, b'0' + (n % 10) as u8)
    }
}

// Writes a number in decimal, digit after digit by recursion.
fn put_large(out: &mut [u8], at: usize, n: u64) -> usize
    requires { at + 20 < 2 ^ 64 }
    ensures wrote { Wrote out.old at (decimal n) result out.new }
    ensures upper_bound { result ≤ at + 20 }
{
    if n < 1000 {
        put_three(out, at, n as u32)
    } else {
        let k = put_large(&mut *out, at, n / 10);
        put_byte(out, k, b'0' + (n % 10) as u8)
    }
}

// Writes a number in decimal. Most have three digits at most, and room: the compiler puts that case into the caller, without the
// tests of put_byte.
pub fn put_decimal(out: &mut [u8], at: usize, n: u64) -> usize
    requires { at + 20 < 2 ^ 64 }
    ensures wrote { Wrote out.old at (decimal n) result out.new }
    ensures upper_bound { result ≤ at + 20 }
{
    if (n < 1000) & (at + 3 <= out.len()) {
        put_three(out, at, n as u32)
    } else {
        put_large(out, at, n)
    }
}

// Writes a number, with a minus sign where it is below 0.
pub fn put_integer(out: &mut [u8], at: usize, n: i64) -> usize
    requires { at + 21 < 2 ^ 64 }
    ensures wrote { Wrote out.old at (integer n) result out.new }
    ensures upper_bound { result ≤ at + 21 }
{
    if n < 0 {
        let a = put_byte(&mut *out, at, b'-');
        put_decimal(out, a, n.unsigned_abs())
    } else {
        put_decimal(out, at, n.unsigned_abs())
    }
}

// Writes a word, and a number in decimal after it.
pub fn put_labelled(out: &mut [u8], at: usize, word: &[u8], n: u64) -> usize
    requires { at + length word.now + 20 < 2 ^ 64 }
    ensures wrote { Wrote out.old at (word.now ++ decimal n) result out.new }
    ensures upper_bound { result ≤ at + length word.now + 20 }
{
    let a = put_bytes(&mut *out, at, word);
    put_decimal(&mut *out, a, n)
}

// Writes a number in decimal, with a word before it and one after it.
pub fn put_number(out: &mut [u8], at: usize, before: &[u8], n: u64, after: &[u8]) -> usize
    requires { at + length before.now + 20 + length after.now < 2 ^ 64 }
    ensures wrote { Wrote out.old at (before.now ++ (decimal n ++ after.now)) result out.new }
    ensures upper_bound { result ≤ at + length before.now + 20 + length after.now }
{
    let a = put_labelled(&mut *out, at, before, n);
    put_bytes(&mut *out, a, after)
}

// Writes the line of a refusal.
pub fn put_refused(out: &mut [u8], at: usize, number: u64, place: u64) -> usize
    requires { at + 50 < 2 ^ 64 }
    ensures wrote { Wrote out.old at (refused_line number place) result out.new }
    ensures upper_bound { result ≤ at + 50 }
{
    let a = put_number(&mut *out, at, b"refused ", number, b" ");
    let b = put_decimal(&mut *out, a, place);
    put_byte(&mut *out, b, b'\n')
}
