// Framings: what a run of bytes says of a frame at its start, the laws that
// every framing keeps, and the framings that stand over others. Nothing here
// knows a maker's format.
#![tactic(auto)]

pub mod checksum;
pub mod framing;
pub mod headed;
pub mod pair;
pub mod stamped;
pub mod verdict;
