// The text of a judged plan, which program judge writes: a plan walked, and settled where it solves.
#![tactic(auto)]

mod preferences;

ghost use Rattle.std.specs.Prelude.{◌≡◌, ◌*◌, length};
ghost use Rattle.task.specs.File.{paired};
ghost use Rattle.meaning.specs.Verdict.{solved};
ghost use Rattle.state.specs.Member.{bit};
ghost use Rattle.plan.specs.ThenSettled.{with_amounts};
ghost use Rattle.plan.specs.Answers.{as_verdict};
ghost use Rattle.text.specs.Area.{Wrote, Filled};
ghost use Rattle.outcome.specs.Outcome.{area_after};
ghost use Rattle.outcome.specs.Answers.{answer};
ghost use Rattle.report.specs.Report.{report_on, report_outcome, WalkedTo};
ghost use Rattle.report.specs.Rows.{verdict_of_rows, report_of_rows};

use plan::{Solution, Verdict};
use settling::Worth;
use task::Refusal;
use task::rows::{Rows, rows_of};

// An area of this length holds every report (proofs/Longest).
pub const MAX_REPORT: usize = 2048;

// Writes the text of a plan that solves, from what it is worth.
fn put_worth(steps: usize, s: Solution, w: Worth, rows: &Rows, out: &mut [u8]) -> usize
    ensures { let listed = paired rows.now.marks.now rows.now.values.now in
        let verdict = solved s.cost w.metric w.utility (bit s.met) in
        Wrote out.old 0 (verdict_of_rows listed steps verdict) result out.new }
{
    let a = report_lines::put_solved(&mut *out, 0, steps, s.cost);
    let b = preferences::put_rows(&mut *out, a, s.met, rows);
    report_lines::put_amounts(&mut *out, b, w.metric, w.utility)
}

// Writes the text of a verdict on the task in a file. Settle refuses nothing that walk gave.
fn put_verdict(file: &[u8], steps: usize, v: Verdict, rows: &Rows, out: &mut [u8]) -> usize
    ensures { let listed = paired rows.now.marks.now rows.now.values.now in
        let judged = with_amounts file.now (as_verdict v) in
        Wrote out.old 0 (report_of_rows listed steps judged) result out.new }
{
    match v {
        Verdict::Solved(s) => match settling::settle(file, s.cost, s.met) {
            Ok(w) => put_worth(steps, s, w, rows, out),
            Err(_) => 0,
        },
        Verdict::Stopped(step) => report_lines::put_stopped(out, 0, step),
        Verdict::GoalMissed => text::put_bytes(out, 0, b"goal missed\n"),
        Verdict::RuleMissed(rule) => report_lines::put_rule_missed(out, 0, rule),
    }
}

// Writes the text of the verdict on a plan, as far as the area has room, and answers its length. A refused file has no text.
fn put_text(file: &[u8], plan: &[u8], v: Verdict, out: &mut [u8]) -> usize
    requires { WalkedTo file.now plan.now (as_verdict v) }
    ensures { Filled out.old (report_on file.now plan.now) result out.new }
{
    let steps = plan.len();
    let Ok(z) = task::check(file) else {
        return 0;
    };
    put_verdict(file, steps, v, &rows_of(file, z.rows), out)
}

// Writes the text of the verdict on a plan where the area has room for it. It is made in an area that holds every text, so that
// nothing is written before its length is known.
fn write_verdict(file: &[u8], plan: &[u8], v: Verdict, out: &mut [u8]) -> Result<usize, Refusal>
    requires { WalkedTo file.now plan.now (as_verdict v) }
    ensures result_value { answer result ≡ report_outcome file.now plan.now (length out.old) }
    ensures out_after { let outcome = report_outcome file.now plan.now (length out.old) in
        out.new ≡ area_after (report_on file.now plan.now) out.old outcome }
{
    let mut whole: [u8; MAX_REPORT] = [0; MAX_REPORT];
    let n = outcome::fitted(put_text(file, plan, v, &mut whole), out.len())?;
    text::put_bytes(&mut *out, 0, text::front(&whole, n));
    Ok(n)
}

// Walks a plan on the task in a file, settles it where it solves, and writes the lines of program judge to the area's start.
pub fn write_report(file: &[u8], plan: &[u8], out: &mut [u8]) -> Result<usize, Refusal>
    ensures result_value { answer result ≡ report_outcome file.now plan.now (length out.old) }
    ensures out_after { let outcome = report_outcome file.now plan.now (length out.old) in
        out.new ≡ area_after (report_on file.now plan.now) out.old outcome }
{
    let w = plan::walk(file, plan)?;
    write_verdict(file, plan, w.verdict, &mut *out)
}
