// What stands on a receiver and on a maker's format together.
#![tactic(auto)]

pub mod line;
