// The operations for callers in C and Rust. include/route_rules.h is their header.
#![tactic(auto)]

ghost use Rattle.std.specs.Prelude.{◌≡◌, ℕ, ◌/◌, length};
ghost use Rattle.report.specs.Report.{report_on, report_outcome};
ghost use Rattle.task.specs.Check.{check};
ghost use Rattle.state.specs.Member.{bit};
ghost use Rattle.plan.specs.Walked.{walked};
ghost use Rattle.settling.specs.Settled.{settled};
ghost use Rattle.classical.specs.Translation.{compiled};
ghost use Rattle.outcome.specs.Outcome.{written, area_after};
ghost use Rattle.translation.specs.Translated.{outcome, Delivered};
ghost use Rattle.paid.specs.CostIsMetric.{CostIsMetric, StillPaid};
ghost use Rattle.losses.specs.Losses.{Lost};
ghost use Rattle.lost.specs.Answered.{given, answered, Claimed};
ghost use Rattle.canonical.specs.Canonical.{respelled};
ghost use Rattle.spelling.specs.Outcome.{outcome as spelled};
ghost use Rattle.singling.specs.Singled.{singled_file};
ghost use Rattle.singling.specs.Outcome.{outcome as single_outcome};
ghost use Rattle.single_effects.specs.Claim.{Delivered as Singled};
ghost use Rattle.source.specs.Source.{outcome as sourced, part_in, Returned};
ghost use Rattle.plan_lines.specs.PlanText.{text_of};
ghost use Rattle.plan_text.specs.Outcomes.{read_outcome, steps_in, write_outcome, text_walked};
ghost use Rattle.pddl_text.specs.Outcomes.{outcome_over as texts, domain_over, problem_over};
ghost use Rattle.figures.specs.Week.{week_of};
ghost use Rattle.figures.specs.Promised.{Promised};
ghost use Rattle.words.specs.Numbers.{call, of_check, of_outcome, of_texts, of_walk, of_settle, of_week, of_losses, of_search};
ghost use Rattle.searched.specs.Searched.{search_file};
ghost use Rattle.searched.specs.Claim.{Claim};
ghost use Rattle.optimal.specs.Optimal.{OptimalOn};
ghost use Rattle.finding.specs.Finding.{plan_after};
ghost use Rattle.cheapest.specs.LentWords.{LentWords};

use cheapest::plain;
use node_words::limits;

// Checks a task file.
#[unsafe(no_mangle)]
pub extern "C" fn route_rules_check(file: &[u8], answer: &mut [u64; 8]) -> u32
    ensures { call result answer.new ≡ of_check (check file.now) }
{
    words::put_checked(task::check(file), answer)
}

// Translates the task in a file into the area `out`. A refusal leaves that area as it was.
#[unsafe(no_mangle)]
pub extern "C" fn route_rules_translate(file: &[u8], out: &mut [u8], answer: &mut [u64; 8]) -> u32
    ensures answer_after { call result answer.new ≡ of_outcome (outcome file.now (length out.old)) }
    ensures out_after { out.new ≡ area_after (compiled file.now) out.old (outcome file.now (length out.old)) }
    ensures by_index { (n : ℕ) → outcome file.now (length out.old) ≡ written n → Delivered file.now out.new n }
    ensures by_index_2 { (n : ℕ) → outcome file.now (length out.old) ≡ written n → CostIsMetric file.now out.new n }
{
    words::put_outcome(translation::translate(file, out), answer)
}

// Writes the one spelling of the task in a file into the area `out`. A refusal leaves that area as it was.
#[unsafe(no_mangle)]
pub extern "C" fn route_rules_spell(file: &[u8], out: &mut [u8], answer: &mut [u64; 8]) -> u32
    ensures answer_after { call result answer.new ≡ of_outcome (spelled file.now (length out.old)) }
    ensures out_after { let answered = spelled file.now (length out.old) in
        out.new ≡ area_after (respelled file.now) out.old answered }
{
    words::put_outcome(spelling::spell(file, out), answer)
}

// Writes the task in a file with single literals in its effects into the area `out`. A refusal leaves that area as it was.
#[unsafe(no_mangle)]
pub extern "C" fn route_rules_single(file: &[u8], out: &mut [u8], answer: &mut [u64; 8]) -> u32
    ensures answer_after { call result answer.new ≡ of_outcome (single_outcome file.now (length out.old)) }
    ensures out_after { let answered = single_outcome file.now (length out.old) in
        out.new ≡ area_after (singled_file file.now) out.old answered }
    ensures by_index { (n : ℕ) → single_outcome file.now (length out.old) ≡ written n → Singled file.now out.new n }
    ensures by_index_2 { (n : ℕ) → single_outcome file.now (length out.old) ≡ written n
        → StillPaid file.now out.new n }
{
    words::put_outcome(single_effects::single(file, out), answer)
}

// Walks a plan on the task in a file.
#[unsafe(no_mangle)]
pub extern "C" fn route_rules_walk(file: &[u8], plan: &[u8], answer: &mut [u64; 8]) -> u32
    ensures { call result answer.new ≡ of_walk (walked file.now plan.now) }
{
    words::put_walked(plan::walk(file, plan), answer)
}

// Settles a cost and met preferences on the task in a file.
#[unsafe(no_mangle)]
pub extern "C" fn route_rules_settle(file: &[u8], cost: u64, met: u64, answer: &mut [u64; 8]) -> u32
    ensures { call result answer.new ≡ of_settle (settled file.now cost (bit met)) }
{
    words::put_settled(settling::settle(file, cost, met), answer)
}

// Reads a plan's text into the area `out`, one byte a step. A refusal leaves that area as it was.
#[unsafe(no_mangle)]
pub extern "C" fn route_rules_read_plan(text: &[u8], out: &mut [u8], answer: &mut [u64; 8]) -> u32
    ensures answer_after { call result answer.new ≡ of_outcome (read_outcome text.now (length out.old)) }
    ensures out_after { let outcome = read_outcome text.now (length out.old) in
        out.new ≡ area_after (steps_in text.now) out.old outcome }
{
    words::put_outcome(plan_text::read(text, out), answer)
}

// Writes a plan as text into the area `out`. A refusal leaves that area as it was.
#[unsafe(no_mangle)]
pub extern "C" fn route_rules_write_plan(plan: &[u8], out: &mut [u8], answer: &mut [u64; 8]) -> u32
    ensures answer_after { call result answer.new ≡ of_outcome (write_outcome plan.now (length out.old)) }
    ensures out_after { let outcome = write_outcome plan.now (length out.old) in
        out.new ≡ area_after (text_of plan.now) out.old outcome }
{
    words::put_outcome(plan_text::write(plan, out), answer)
}

// Writes the source part of what a planner prints for the translation of the task in a file into the area `out`. A refusal leaves that area
// as it was.
#[unsafe(no_mangle)]
pub extern "C" fn route_rules_source(
    file: &[u8],
    text: &[u8],
    out: &mut [u8],
    answer: &mut [u64; 8],
) -> u32
    ensures answer_after { call result answer.new ≡ of_outcome (sourced file.now text.now (length out.old)) }
    ensures out_after { let answered = sourced file.now text.now (length out.old) in
        out.new ≡ area_after (part_in file.now text.now) out.old answered }
    ensures by_index { (m : ℕ) → sourced file.now text.now (length out.old) ≡ written m
        → Returned file.now text.now out.new m }
{
    words::put_outcome(source::source(file, text, out), answer)
}

// Walks the plan in a text on the task in a file.
#[unsafe(no_mangle)]
pub extern "C" fn route_rules_walk_text(file: &[u8], text: &[u8], answer: &mut [u64; 8]) -> u32
    ensures { call result answer.new ≡ of_walk (text_walked file.now text.now) }
{
    words::put_walked(plan_text::walk_text(file, text), answer)
}

// Writes the task in a file as PDDL into the areas `domain` and `problem`. A refusal leaves both as they were.
#[unsafe(no_mangle)]
pub extern "C" fn route_rules_pddl(
    file: &[u8],
    domain: &mut [u8],
    problem: &mut [u8],
    answer: &mut [u64; 8],
) -> u32
    ensures answer_after { call result answer.new ≡ of_texts (texts file.now domain.old problem.old) }
    ensures domain_after { domain.new ≡ domain_over file.now domain.old problem.old }
    ensures problem_after { problem.new ≡ problem_over file.now domain.old problem.old }
{
    words::put_texts(pddl_text::write(file, domain, problem), answer)
}

// Searches the task in a file for a cheapest plan, keeping at most so many nodes. The list `nodes` then begins with the nodes kept, four
// words for each, and the area `plan` with the plan found. A refusal leaves both as they were.
#[unsafe(no_mangle)]
pub extern "C" fn route_rules_search(
    file: &[u8],
    limit: u64,
    nodes: &mut [u64],
    plan: &mut [u8; limits::MAX_FOUND],
    answer: &mut [u64; 8],
) -> u32
    ensures answer_after { call result answer.new ≡ of_search (search_file file.now limit (length nodes.old / 4)) }
    ensures lent_words { LentWords (search_file file.now limit (length nodes.old / 4)).kept nodes.old nodes.new }
    ensures plan_after { plan.new ≡ plan_after (search_file file.now limit (length nodes.old / 4)).answer plan.old }
    ensures claim { Claim file.now limit (search_file file.now limit (length nodes.old / 4)).answer }
    ensures optimal_on { OptimalOn file.now (search_file file.now limit (length nodes.old / 4)).answer }
{
    words::put_sought(plain::search(file, limit as usize, nodes, plan), answer)
}

// Writes the lines of program judge about a plan on the task in a file into the area `out`. A refusal leaves that area as it was.
#[unsafe(no_mangle)]
pub extern "C" fn route_rules_report(
    file: &[u8],
    plan: &[u8],
    out: &mut [u8],
    answer: &mut [u64; 8],
) -> u32
    ensures answer_after { call result answer.new ≡ of_outcome (report_outcome file.now plan.now (length out.old)) }
    ensures out_after { let outcome = report_outcome file.now plan.now (length out.old) in
        out.new ≡ area_after (report_on file.now plan.now) out.old outcome }
{
    words::put_outcome(report::write_report(file, plan, out), answer)
}

// The figures of a week's plans on the task in a file.
#[unsafe(no_mangle)]
pub extern "C" fn route_rules_week(file: &[u8], plans: &[u8], answer: &mut [u64; 24]) -> u32
    ensures answer_after { call result answer.new ≡ of_week (week_of file.now plans.now) }
    ensures promised { Promised file.now plans.now (week_of file.now plans.now) }
{
    words::put_week(weekly::week(file, plans), answer)
}

// What is already lost after a list of translated actions of the task in a file, one byte an action.
#[unsafe(no_mangle)]
pub extern "C" fn route_rules_lost(file: &[u8], steps: &[u8], answer: &mut [u64; 8]) -> u32
    ensures answer_after { call result answer.new ≡ of_losses (answered file.now steps.now) }
    ensures claimed { (v : Lost) → answered file.now steps.now ≡ given v → Claimed file.now }
{
    words::put_losses(lost::lost(file, steps), answer)
}
