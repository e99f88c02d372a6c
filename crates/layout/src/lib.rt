// Where the parts of a task stand among the rows of its file.
#![tactic(auto)]

pub mod actions;
pub mod sides;
