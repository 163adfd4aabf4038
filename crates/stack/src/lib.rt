//! A stack of records in a slice that its owner lends.
//!
//! The slice is the whole of its memory: a push beyond it is refused, and nothing is ever allocated.

#![tactic(auto)]

mod callers;
mod stack;
#[cfg(test)]
mod tests;

pub use stack::Stack;
