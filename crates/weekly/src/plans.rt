// The file of a week's plans.
ghost use Rattle.std.specs.Prelude.{◌≡◌, ◌+◌, ◌*◌, ◌≤◌, ◌<◌, leb, get_or};
ghost use Rattle.task.specs.File.{word16};
ghost use Rattle.task.specs.Limits.{MAX_PLANS};
ghost use Rattle.figures.specs.Plans.{count as count_in, entry_at, headed, readable};
ghost use Rattle.weekly.specs.Answers.{as_entry};

use task::limits;

// Where a plan stands: its start among the step bytes, and how many steps it has.
#[derive(Clone, Copy)]
pub struct Entry {
    pub start: usize,
    pub steps: usize,
}

// Byte i, or 0 after the end.
fn byte_at(plans: &[u8], i: usize) -> u8
    ensures { result ≡ get_or plans.now i 0 }
{
    plans.get(i).copied().unwrap_or(0)
}

// Two bytes as a number, the lower first.
fn u16_of(low: u8, high: u8) -> usize
    ensures { (result ≡ low + 256 * high) × (result < 65536) }
{
    u16::from_le_bytes([low, high]) as usize
}

fn word_at(plans: &[u8], i: usize) -> usize
    requires { i < 65536 }
    ensures { (result ≡ word16 plans.now i) × (result < 65536) }
{
    u16_of(byte_at(plans, i), byte_at(plans, i + 1))
}

// How many plans the file says that it has.
pub fn count(plans: &[u8]) -> usize
    ensures { (result ≡ count_in plans.now) × (result < 65536) }
{
    word_at(plans, 0)
}

// Plan i of n.
pub fn entry_at(plans: &[u8], n: usize, i: usize) -> Entry
    requires { (n ≡ count_in plans.now) × (n ≤ MAX_PLANS) × (i < n) }
    ensures { (as_entry result ≡ entry_at plans.now i) × (result.start < 65536) × (result.steps < 65536) }
{
    Entry {
        start: word_at(plans, 2 + 2 * i),
        steps: word_at(plans, 2 + 2 * n + 2 * i),
    }
}

// Whether the file has from 1 to 64 plans, and room for their starts and lengths.
fn is_headed(plans: &[u8], n: usize) -> bool
    requires { (n ≡ count_in plans.now) × (n < 65536) }
    ensures { result ≡ headed plans.now }
{
    (2 <= plans.len()) & (1 <= n) & (n <= limits::MAX_PLANS) & (2 + 4 * n <= plans.len())
}

// Whether a plan stands within so many step bytes, one of no steps too.
fn stands(e: Entry, room: usize) -> bool
    requires { (e.start < 65536) × (e.steps < 65536) }
    ensures { result ≡ leb (e.start + e.steps) room }
{
    e.start + e.steps <= room
}

// Whether the file can be read: each plan stands within the step bytes.
pub fn is_readable(plans: &[u8]) -> bool
    ensures { result ≡ readable plans.now }
{
    let n = count(plans);
    if !is_headed(plans, n) {
        return false;
    }
    let room = plans.len() - (2 + 4 * n);
    for i in 0..n {
        if !stands(entry_at(plans, n, i), room) {
            return false;
        }
    }
    true
}
