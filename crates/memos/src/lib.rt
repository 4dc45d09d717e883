//! Memos: what answers to questions on diagrams are held in, so that a question need not be opened twice.
#![tactic(auto)]

pub mod diagram;
mod half;
pub mod keeping;
pub mod memo;
pub mod question;
pub mod short;
#[cfg(test)]
mod tests;
