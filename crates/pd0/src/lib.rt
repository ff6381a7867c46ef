// Teledyne's PD0 ensembles: opening one, its sections, and where ensembles
// stand in a run of bytes.
#![tactic(auto)]

mod check;
mod claim;
pub mod ensemble;
mod header;
pub mod judging;
pub mod kind;
pub mod section;
mod sections;
pub mod stored;
mod table;
mod whole;
