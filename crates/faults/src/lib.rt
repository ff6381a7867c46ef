// Faults: how a refused call says which question was answered by no, in
// which layer, and at which byte.
#![tactic(auto)]

pub mod frame;
pub mod layer;
pub mod line;
pub mod place;
pub mod section;
