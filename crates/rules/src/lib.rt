//! Rules as they are written: bytes, tokens, the rule that they spell, and the terms that it expands to.
#![tactic(auto)]

mod classes;
mod expand;
pub mod faults;
pub mod laws;
mod nest;
pub mod read;
mod reader;
mod scanner;
pub mod terms;
mod tokens;
mod words;
