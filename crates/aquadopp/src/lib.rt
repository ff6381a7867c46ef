// Nortek's Aquadopp structures: opening one, and where they stand in a run of
// bytes.
#![tactic(auto)]

pub mod judging;
pub mod structure;
