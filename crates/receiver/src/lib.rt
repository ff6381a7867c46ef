// A receiver takes bytes from a line, piece by piece, and finds frames among
// them by any framing. Nothing here knows a maker's format.
#![tactic(auto)]

pub mod answer;
pub mod receiver;
