// The trackers of each kind of preference, as rows.
#![tactic(auto)]

pub mod deadlines;
pub mod kinds;

// The facts S and B of a preference, and the fact before D1.
#[derive(Clone, Copy)]
pub struct Facts {
    pub s: u32,
    pub b: u32,
    pub d: u32,
}
