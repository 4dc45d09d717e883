//! Hash-consing over a borrowed slice: each different key is kept once, at the place where it arrived.
#![tactic(auto)]

pub mod hashing;
pub mod interner;
pub mod key;
pub mod slot;
#[cfg(test)]
mod tests;
pub mod theory;
