// The lines of the text, one by one. Each function writes from a place on and answers the place after.
#![tactic(auto)]

ghost use Rattle.std.specs.Prelude.{◌≡◌, ◌+◌, ◌^◌, ◌≤◌, ◌<◌, length};
ghost use Rattle.task.specs.File.{opens_hard, soft_mark, kind_of};
ghost use Rattle.task.specs.Answers.{as_kind};
ghost use Rattle.text.specs.Area.{Wrote};
ghost use Rattle.report_lines.specs.Lines.{kind_word, hard_word, full_kind, outcome_word, solved_line, preference_line, amounts_line, stopped_line, rule_missed_line};

use task::kinds;
use task::kinds::Kind;

// The word of a kind, whatever its steps.
fn kind_word(kind: Kind) -> &'static [u8]
    ensures word { result.now ≡ kind_word (as_kind kind) }
    ensures upper_bound { length result.now ≤ 15 }
{
    match kind {
        Kind::Always => b"always",
        Kind::Sometime => b"sometime",
        Kind::AtEnd => b"at-end",
        Kind::AtMostOnce => b"at-most-once",
        Kind::SometimeBefore => b"sometime-before",
        Kind::SometimeAfter => b"sometime-after",
        Kind::Within(_) => b"within",
        Kind::AlwaysWithin(_) => b"always-within",
    }
}

fn hard_word(hard: bool) -> &'static [u8]
    ensures word { result.now ≡ hard_word hard }
    ensures upper_bound { length result.now ≤ 5 }
{
    if hard { b"hard-" } else { b"" }
}

// Writes the kind that a mark opens, with `hard-` before that of a hard preference.
fn put_kind(out: &mut [u8], at: usize, mark: u8) -> usize
    requires { at + 20 < 2 ^ 64 }
    ensures wrote { Wrote out.old at (full_kind (opens_hard mark) (kind_of (soft_mark mark) 0)) result out.new }
    ensures upper_bound { result ≤ at + 20 }
{
    let a = text::put_bytes(&mut *out, at, hard_word(task::opens_hard(mark)));
    text::put_bytes(
        &mut *out,
        a,
        kind_word(kinds::kind_of(task::soft_mark(mark), 0)),
    )
}

fn outcome_word(met: bool) -> &'static [u8]
    ensures word { result.now ≡ outcome_word met }
    ensures upper_bound { length result.now ≤ 6 }
{
    if met { b"met" } else { b"missed" }
}

// Writes the line of preference k, which the mark opens.
pub fn put_preference(
    out: &mut [u8],
    at: usize,
    k: usize,
    mark: u8,
    weight: u32,
    met: bool,
) -> usize
    requires { at + 70 < 2 ^ 64 }
    ensures wrote { Wrote out.old at (preference_line k (opens_hard mark) (kind_of (soft_mark mark) 0) weight met) result out.new }
    ensures upper_bound { result ≤ at + 70 }
{
    let a = text::put_decimal(&mut *out, at, k as u64);
    let b = text::put_byte(&mut *out, a, b' ');
    let c = put_kind(&mut *out, b, mark);
    let d = text::put_byte(&mut *out, c, b' ');
    let e = text::put_decimal(&mut *out, d, weight as u64);
    let f = text::put_byte(&mut *out, e, b' ');
    let g = text::put_bytes(&mut *out, f, outcome_word(met));
    text::put_byte(&mut *out, g, b'\n')
}

// Writes the first line of a plan that solves.
pub fn put_solved(out: &mut [u8], at: usize, steps: usize, cost: u64) -> usize
    requires { at + 60 < 2 ^ 64 }
    ensures wrote { Wrote out.old at (solved_line steps cost) result out.new }
    ensures upper_bound { result ≤ at + 60 }
{
    let a = text::put_number(&mut *out, at, b"solved steps ", steps as u64, b" cost ");
    let b = text::put_decimal(&mut *out, a, cost);
    text::put_byte(&mut *out, b, b'\n')
}

// Writes the last line of a plan that solves.
pub fn put_amounts(out: &mut [u8], at: usize, metric: u64, utility: i64) -> usize
    requires { at + 58 < 2 ^ 64 }
    ensures { Wrote out.old at (amounts_line metric utility) result out.new }
{
    let a = text::put_number(&mut *out, at, b"metric ", metric, b" utility ");
    let b = text::put_integer(&mut *out, a, utility);
    text::put_byte(&mut *out, b, b'\n')
}

// Writes the line of a plan that stops.
pub fn put_stopped(out: &mut [u8], at: usize, step: usize) -> usize
    requires { at + 29 < 2 ^ 64 }
    ensures { Wrote out.old at (stopped_line step) result out.new }
{
    text::put_number(out, at, b"stopped ", step as u64, b"\n")
}

// Writes the line of a plan that misses a rule.
pub fn put_rule_missed(out: &mut [u8], at: usize, rule: u32) -> usize
    requires { at + 33 < 2 ^ 64 }
    ensures { Wrote out.old at (rule_missed_line rule) result out.new }
{
    text::put_number(out, at, b"rule missed ", rule as u64, b"\n")
}
