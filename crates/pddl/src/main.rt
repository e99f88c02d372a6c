// Program pddl: writes the task in the file `compiled` as PDDL, to the files `domain.pddl` and `problem.pddl`.
#![tactic(auto)]

use std::io;
use std::rt::Files;

// Writes the two files, where both can be opened. Where one could not be written both are empty: a text beside an old or a cut
// one would mislead.
fn write_texts(rt: &(impl Files + Print), domain: &[u8], problem: &[u8]) -> io::Result<()> {
    if !files::both_open(rt, b"domain.pddl", b"problem.pddl") {
        return files::say_missing(rt);
    }
    let whole = files::write(rt, b"domain.pddl", domain)
        && files::write(rt, b"problem.pddl", problem);
    if whole {
        return Ok(());
    }
    files::empty(rt, b"domain.pddl");
    files::empty(rt, b"problem.pddl");
    files::say_missing(rt)
}

fn main(rt: HostRuntime) -> io::Result<()> {
    // The first buffer has room for more than any accepted file, so a longer one gets the answer of the whole file; the
    // others for every domain and every problem.
    let mut task = [0u8; files::LARGE];
    let Some(n) = files::read(&rt, b"compiled", &mut task) else {
        return files::say_missing(&rt);
    };
    let mut domain = [0u8; pddl_text::MAX_PDDL];
    let mut problem = [0u8; pddl_text::MAX_PDDL];
    match pddl_text::write(text::front(&task, n), &mut domain, &mut problem) {
        Ok(m) => write_texts(
            &rt,
            text::front(&domain, m.domain),
            text::front(&problem, m.problem),
        ),
        Err(f) => files::say_refused(&rt, f),
    }
}
