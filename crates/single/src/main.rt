// Program single: writes the task in the file `task` with single literals in its effects to the file `singled`.
#![tactic(auto)]

use std::io;

fn main(rt: HostRuntime) -> io::Result<()> {
    files::rewrite(&rt, b"task", b"singled", single_effects::single)
}
