// A task without preferences as a domain and a problem in PDDL.
#![tactic(auto)]

mod texts;

ghost use Rattle.std.specs.Prelude.{◌≡◌, ◌≤◌};
ghost use Rattle.task.specs.Limits.{MAX_FACTS};
ghost use Rattle.pddl_text.specs.Writing.{SpelledOver, SpelledShort, OfTask};
ghost use Rattle.pddl_text.specs.Outcomes.{both_fit, outcome_over, domain_over, problem_over};
ghost use Rattle.pddl_text.specs.Answers.{answer, TextsAnswer, DomainPut, ProblemPut, DomainLeft, ProblemLeft};

use task::Refusal;
use task::refused::Cause;
use task::rows::{Rows, rows_of};

// How long the two texts are.
#[derive(Clone, Copy, PartialEq, Eq)]
pub struct Lengths {
    pub domain: usize,
    pub problem: usize,
}

// An area of this length holds every domain and every problem (proofs/Longest).
pub const MAX_PDDL: usize = 262144;

// Writes both texts, each as far as its area reaches.
fn put_both(rows: &Rows, facts: usize, domain: &mut [u8], problem: &mut [u8]) -> Lengths
    requires { (facts ≤ MAX_FACTS) × SpelledOver facts rows.now.marks.now rows.now.values.now }
    ensures of_task { OfTask facts rows.now.marks.now rows.now.values.now (DomainPut domain.old result domain.new) }
    ensures of_task_2 { OfTask facts rows.now.marks.now rows.now.values.now (ProblemPut problem.old result problem.new) }
{
    let p = texts::put_problem(&mut *problem, rows);
    let d = texts::put_domain(&mut *domain, facts, rows, p.next);
    Lengths {
        domain: d,
        problem: p.at,
    }
}

// Whether both fit into areas of so many bytes.
fn both_fit(rows: &Rows, facts: usize, domain: usize, problem: usize) -> bool
    requires { (facts ≤ MAX_FACTS) × SpelledOver facts rows.now.marks.now rows.now.values.now }
    ensures { OfTask facts rows.now.marks.now rows.now.values.now (λ t. result ≡ both_fit t domain problem) }
{
    let mut no_domain: [u8; 1] = [0; 1];
    let mut no_problem: [u8; 1] = [0; 1];
    let n = put_both(rows, facts, &mut no_domain, &mut no_problem);
    (n.domain <= domain) & (n.problem <= problem)
}

// Writes both texts, where both fit. They are counted first where an area is not long enough for every text.
fn put_texts(
    rows: &Rows,
    facts: usize,
    domain: &mut [u8],
    problem: &mut [u8],
) -> Result<Lengths, Refusal>
    requires { (facts ≤ MAX_FACTS) × SpelledShort facts rows.now.marks.now rows.now.values.now }
    ensures of_task { OfTask facts rows.now.marks.now rows.now.values.now (TextsAnswer domain.old problem.old result) }
    ensures of_task_2 { OfTask facts rows.now.marks.now rows.now.values.now (DomainLeft domain.old result domain.new) }
    ensures of_task_3 { OfTask facts rows.now.marks.now rows.now.values.now (ProblemLeft problem.old result problem.new) }
{
    if (MAX_PDDL <= domain.len()) & (MAX_PDDL <= problem.len()) {
        return Ok(put_both(rows, facts, &mut *domain, &mut *problem));
    }
    if !both_fit(rows, facts, domain.len(), problem.len()) {
        return Err(Cause::ShortArea.at(0));
    }
    Ok(put_both(rows, facts, &mut *domain, &mut *problem))
}

// Writes the task in a file as PDDL, the domain to the start of one area and the problem to that of the other. A refusal leaves both as
// they were.
pub fn write(file: &[u8], domain: &mut [u8], problem: &mut [u8]) -> Result<Lengths, Refusal>
    ensures result_value { answer result ≡ outcome_over file.now domain.old problem.old }
    ensures domain_after { domain.new ≡ domain_over file.now domain.old problem.old }
    ensures problem_after { problem.new ≡ problem_over file.now domain.old problem.old }
{
    let z = task::check(file)?;
    if z.preferences != 0 {
        return Err(Cause::Preferences.at(0));
    }
    put_texts(&rows_of(file, z.rows), z.facts, &mut *domain, &mut *problem)
}
