// Programs that run test vectors: the one loop over a file of them, and what is done with each.
#![tactic(auto)]

pub mod amounts;
pub mod checks;
mod lines;
pub mod plans;
pub mod spellings;
pub mod texts;
pub mod walks;

use std::fs::File;
use std::io;
use std::io::Read;
use std::rt::Files;

// Room for a task, a plan, the text of one, or an area for a spelling.
const ROOM: usize = 65536;

// What the vectors of a file are: task files to check; tasks and plans to report on; tasks and plans to walk; tasks and plans'
// texts to read, walk and settle; tasks, costs and met preferences to settle; tasks and areas to spell them into.
#[derive(Clone, Copy)]
pub enum Family {
    Checks,
    Plans,
    Walks,
    Texts,
    Amounts,
    Spellings,
}

// A proved loop has to end, and nothing says that a file does: so the loop counts its turns, to a number that no run reaches.
fn run_all<R: Files + Print, F: Fn(&R, &mut R::File) -> io::Result<bool>>(
    rt: &R,
    vectors: &mut R::File,
    next: F,
) -> io::Result<()>
    requires { F.IsAlwaysCallable next }
{
    for _ in 0..u64::MAX {
        if !next(rt, &mut *vectors)? {
            break;
        }
    }
    Ok(())
}

// Runs the vectors of the file `vectors`: `next` runs the one that comes next, and answers whether there was one.
pub fn run_by<R: Files + Print, F: Fn(&R, &mut R::File) -> io::Result<bool>>(
    rt: &R,
    next: F,
) -> io::Result<()>
    requires { F.IsAlwaysCallable next }
{
    let Ok(mut vectors) = File::open(rt, "vectors") else {
        return rt.write_all(b"no file\n");
    };
    run_all(rt, &mut vectors, next)
}

// Runs the vectors of the file `vectors`, which are of a family.
pub fn run(rt: &(impl Files + Print), family: Family) -> io::Result<()> {
    match family {
        Family::Checks => run_by(rt, |rt, vectors| checks::check_next(rt, vectors)),
        Family::Plans => run_by(rt, |rt, vectors| plans::report_next(rt, vectors)),
        Family::Walks => run_by(rt, |rt, vectors| walks::walk_next(rt, vectors)),
        Family::Texts => run_by(rt, |rt, vectors| texts::walk_next(rt, vectors)),
        Family::Amounts => run_by(rt, |rt, vectors| amounts::settle_next(rt, vectors)),
        Family::Spellings => run_by(rt, |rt, vectors| spellings::spell_next(rt, vectors)),
    }
}
