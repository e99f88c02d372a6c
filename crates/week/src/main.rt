// Program week: writes the figures of the plans in the file `plans` on the task in the file `task`.
#![tactic(auto)]

use std::io;

fn main(rt: HostRuntime) -> io::Result<()> {
    let mut plans = [0u8; week_report::PLANS_READ];
    let mut out = [0u8; week_report::MAX_WEEK];
    files::say_made(&rt, b"plans", &mut plans, &mut out, week_report::write_week)
}
