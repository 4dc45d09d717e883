//! Decision diagrams in a memory of nodes: each different node is held once, at the place where it arrived.
#![tactic(auto)]

pub mod engine;
mod frames;
pub mod node;
pub mod nodes;
pub mod solve;
#[cfg(test)]
mod tests;
