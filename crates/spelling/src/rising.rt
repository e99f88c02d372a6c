// Rows of two sets of facts, written by rising fact.
ghost use Rattle.std.specs.Prelude.{◌≤◌};
ghost use Rattle.task.specs.TaskRows.{row};
ghost use Rattle.state.specs.Member.{bit, member};
ghost use Rattle.writer.specs.Writer.{Room, Wrote};
ghost use Rattle.canonical.specs.BySets.{when};
ghost use Rattle.spelling.specs.Runs.{fact_rows, word_rows, rising_rows};

use state::State;
use writer::Cursor;

// Writes a row, where it is wanted.
fn put_if(out: &mut [u8], c: Cursor, mark: u8, fact: u32, wanted: bool) -> Cursor
    requires { Room c out.old }
    ensures { Wrote out.old c (when wanted (row mark fact)) result out.new }
{
    if wanted {
        return writer::put_row(&mut *out, c, mark, fact);
    }
    c
}

// Writes the rows of one fact.
fn put_fact(
    out: &mut [u8],
    c: Cursor,
    a: u8,
    b: u8,
    fact: u32,
    in_first: bool,
    in_second: bool,
) -> Cursor
    requires { Room c out.old }
    ensures { Wrote out.old c (fact_rows a b in_first in_second fact) result out.new }
{
    let k = put_if(&mut *out, c, a, fact, in_first);
    put_if(&mut *out, k, b, fact, in_second)
}

// Writes the rows of the facts from `base` on that are bits of two words, from bit to bit.
fn put_word(out: &mut [u8], c: Cursor, a: u8, b: u8, base: u32, first: u64, second: u64) -> Cursor
    requires { Room c out.old × (base ≤ 64) }
    ensures { Wrote out.old c (word_rows a b base (bit first) (bit second)) result out.new }
{
    let mut k = c;
    let mut rest = first | second;
    while rest != 0 {
        let n = u64::trailing_zeros(rest);
        let in_first = state::test_bit(first, n);
        let in_second = state::test_bit(second, n);
        k = put_fact(&mut *out, k, a, b, base + n, in_first, in_second);
        rest = rest & !(1 << n);
    }
    k
}

// Writes the rows of two sets, those of the first with mark a and those of the second with mark b.
pub fn put_rising(out: &mut [u8], c: Cursor, a: u8, b: u8, first: State, second: State) -> Cursor
    requires { Room c out.old }
    ensures { Wrote out.old c (rising_rows a b (record { first = member first; second = member second })) result out.new }
{
    let k = put_word(&mut *out, c, a, b, 0, first.low, second.low);
    put_word(&mut *out, k, a, b, 64, first.high, second.high)
}
