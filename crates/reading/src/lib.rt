// What rows say of a state: the opening state, conditions, and the effects of an action.
#![tactic(auto)]

pub mod conditions;
pub mod effects;
pub mod opening;
