// Program spell: writes the one spelling of the task in the file `task` to the file `spelled`.
#![tactic(auto)]

use std::io;

fn main(rt: HostRuntime) -> io::Result<()> {
    files::rewrite(&rt, b"task", b"spelled", spelling::spell)
}
