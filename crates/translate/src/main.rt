// Program translate: translates the task in the file `task`, and writes the translation to the file `compiled`.
#![tactic(auto)]

use std::io;

fn main(rt: HostRuntime) -> io::Result<()> {
    files::rewrite(&rt, b"task", b"compiled", translation::translate)
}
