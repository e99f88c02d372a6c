// Program search: writes a cheapest plan for the task in the file `compiled` to the file `planned`.
#![tactic(auto)]

use planned::Planned;
use std::io;

fn main(rt: HostRuntime) -> io::Result<()> {
    // The first buffer has room for more than any accepted file, so a longer one gets the answer of the whole file; the
    // second for every plan found.
    let mut task = [0u8; files::LARGE];
    let Some(n) = files::read(&rt, b"compiled", &mut task) else {
        return files::say_missing(&rt);
    };
    let mut out = [0u8; 8192];
    match planned::write(text::front(&task, n), &mut out) {
        Ok(Planned::Written(m)) => files::write_or_say(&rt, b"planned", text::front(&out, m)),
        Ok(Planned::NoPlan) => rt.write_all(b"none\n"),
        Ok(Planned::Full) => rt.write_all(b"full\n"),
        Err(f) => files::say_refused(&rt, f),
    }
}
