// Reads, walks and settles the plans' texts of the file `vectors`.
#![tactic(auto)]

use std::io;
use vectors::Family;

fn main(rt: HostRuntime) -> io::Result<()> {
    vectors::run(&rt, Family::Texts)
}
