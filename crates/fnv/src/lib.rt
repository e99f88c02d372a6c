// The 32-bit FNV-1a hash of a state's 16 bytes.
#![tactic(auto)]

ghost use Rattle.std.specs.Prelude.{◌≡◌, ◌*◌, ◌%◌};
ghost use Rattle.fnv.specs.Fnv.{BASIS, mixed, hash_from, fnv1a, little_endian, state_bytes};

use state::State;

const BASIS: u32 = 2166136261;

const PRIME: u32 = 16777619;

// The product of two numbers of 32 bits, of which the lower 32 bits are kept: a helper of our own, as document 01 asks.
fn times(a: u32, b: u32) -> u32
    ensures { result ≡ a * b % 4294967296 }
{
    ((a as u64) * (b as u64) % 4294967296) as u32
}

// The hash h with one byte more.
fn with_byte(h: u32, byte: u8) -> u32
    ensures { result ≡ mixed h byte }
{
    times(h ^ u32::from(byte), PRIME)
}

// The hash h with these bytes more.
fn with_bytes(h: u32, bytes: &[u8]) -> u32
    ensures { result ≡ hash_from h bytes.now }
{
    let mut g = h;
    for byte in bytes {
        g = with_byte(g, *byte);
    }
    g
}

// The hash h with the eight bytes of a word more, the lowest first.
fn with_word(h: u32, word: u64) -> u32
    ensures { result ≡ hash_from h (little_endian 8 word) }
{
    with_bytes(h, &word.to_le_bytes())
}

// The hash of a state: of word 0, then of word 1.
pub fn of_state(s: State) -> u32
    ensures { result ≡ fnv1a (state_bytes s) }
{
    with_word(with_word(BASIS, s.low), s.high)
}
