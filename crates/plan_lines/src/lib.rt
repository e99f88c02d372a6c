// A plan as text, a line `(aN)` for each step: lines scanned byte by byte, and lines printed.
#![tactic(auto)]

pub mod print;
pub mod scan;
