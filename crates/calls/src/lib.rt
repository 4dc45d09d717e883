//! The calls of a bench: what can be called, what is answered, and why a call is denied.
//! `specs/` says what every call answers, and what holds over whole runs of calls; `laws` has the theorems.
#![tactic(auto)]

pub mod answer;
pub mod call;
pub mod faults;
pub mod laws;
