// The text of a week, which program week prints. Each function but the last writes from a place on and answers the place after.
#![tactic(auto)]

ghost use Rattle.std.specs.Prelude.{◌≡◌, ◌++◌, ◌+◌, ◌*◌, ◌^◌, ◌≤◌, ◌<◌, length, Some};
ghost use Rattle.task.specs.Limits.{MAX_PREFERENCES};
ghost use Rattle.lists.specs.Lists.{concat_from};
ghost use Rattle.text.specs.Area.{Wrote, written};
ghost use Rattle.outcome.specs.Answers.{answer};
ghost use Rattle.weekly.specs.Answers.{figures_as};
ghost use Rattle.figures.specs.Week.{given};
ghost use Rattle.week_report.specs.Lines.{plans_line, solving_line, metric_line, meeting_line};
ghost use Rattle.week_report.specs.Report.{answer_text, week_text, week_outcome};
ghost use Rattle.week_report.specs.Of.{amounts_of};

use task::Refusal;
use weekly::{Amounts, plans};

// An area of this length holds every text (proofs/Longest).
pub const MAX_WEEK: usize = 2048;

// No start and length reach beyond so many bytes of a file of plans: a longer file is answered as these are (proofs/Front).
pub const PLANS_READ: usize = 131328;

// Writes the lines of the plans and of those that solve.
fn put_counts(out: &mut [u8], at: usize, plans: u64, solving: u64) -> usize
    requires { at + 100 < 2 ^ 64 }
    ensures wrote { Wrote out.old at (plans_line plans ++ solving_line solving) result out.new }
    ensures upper_bound { result ≤ at + 60 }
{
    let a = text::put_labelled(&mut *out, at, b"plans ", plans);
    let b = text::put_byte(&mut *out, a, b'\n');
    let c = text::put_labelled(&mut *out, b, b"solving ", solving);
    text::put_byte(&mut *out, c, b'\n')
}

// Writes the line of the metrics.
fn put_metrics(out: &mut [u8], at: usize, m: Amounts) -> usize
    requires { at + 200 < 2 ^ 64 }
    ensures wrote { Wrote out.old at (metric_line (amounts_of m)) result out.new }
    ensures upper_bound { result ≤ at + 200 }
{
    let a = text::put_labelled(&mut *out, at, b"metric least ", m.least);
    let b = text::put_labelled(&mut *out, a, b" greatest ", m.greatest);
    let c = text::put_labelled(&mut *out, b, b" sum ", m.sum);
    let d = text::put_labelled(&mut *out, c, b" mean ", m.mean);
    let e = text::put_labelled(&mut *out, d, b" remainder ", m.remainder);
    text::put_byte(&mut *out, e, b'\n')
}

// Writes the line of preference k.
fn put_meeting(out: &mut [u8], at: usize, k: usize, n: u64) -> usize
    requires { at + 60 < 2 ^ 64 }
    ensures wrote { Wrote out.old at (meeting_line k n) result out.new }
    ensures upper_bound { result ≤ at + 60 }
{
    let a = text::put_labelled(&mut *out, at, b"preference ", k as u64);
    let b = text::put_labelled(&mut *out, a, b" met ", n);
    text::put_byte(&mut *out, b, b'\n')
}

// Writes a line for each count.
fn put_meetings(out: &mut [u8], at: usize, counts: &[u64]) -> usize
    requires { (length counts.now ≤ MAX_PREFERENCES) × (at ≤ 300) }
    ensures { Wrote out.old at (concat_from meeting_line 0 counts.now) result out.new }
{
    let mut p = at;
    for (k, n) in counts.iter().enumerate() {
        p = put_meeting(&mut *out, p, k, *n);
    }
    p
}

// Writes the text of some plans of which one solves.
fn put_figures(out: &mut [u8], plans: u64, m: Amounts) -> usize
    ensures { Wrote out.old 0 (answer_text plans (given (figures_as (Some m)))) result out.new }
{
    let a = put_counts(&mut *out, 0, plans, m.solving);
    let b = put_metrics(&mut *out, a, m);
    put_meetings(&mut *out, b, text::front(&m.meeting, m.preferences))
}

// Writes the text of a week to the area's start, as far as there is room, and answers its length, or the refusal.
pub fn write_week(file: &[u8], plans: &[u8], out: &mut [u8]) -> Result<usize, Refusal>
    ensures result_value { answer result ≡ week_outcome file.now plans.now }
    ensures out_after { out.new ≡ written (week_text file.now plans.now) 0 out.old }
{
    let figures = weekly::week(file, plans)?;
    let n = plans::count(plans) as u64;
    match figures {
        None => Ok(put_counts(&mut *out, 0, n, 0)),
        Some(m) => Ok(put_figures(&mut *out, n, m)),
    }
}
