// The conditions and the actions of a task as PDDL.
#![tactic(auto)]

pub mod actions;
pub mod conditions;
