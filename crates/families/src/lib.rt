//! The mathematics of quorum families: groups as masks, families as decision diagrams, and what is asked of them.
//! The code is the mask functions; each function of `theorems` has a theorem for its contract.
#![tactic(auto)]

pub mod masks;
pub mod theorems;
