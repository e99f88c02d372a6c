// Program judge: judges the plan in the file `plan` on the task in the file `task`, and writes what it is worth.
#![tactic(auto)]

use std::io;

// So many bytes of a plan are read: more than any that is judged has, so a longer one gets the answer of the whole file.
const PLAN_READ: usize = 4096;

fn main(rt: HostRuntime) -> io::Result<()> {
    let mut plan = [0u8; PLAN_READ];
    let mut out = [0u8; report::MAX_REPORT];
    files::say_made(&rt, b"plan", &mut plan, &mut out, report::write_report)
}
