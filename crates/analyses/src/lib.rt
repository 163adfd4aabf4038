//! What is found out about a loaded book after it was read: names of nothing, nullable rules, and
//! `star`s that could go round for ever.

#![tactic(auto)]

mod loops;
mod missing;
mod nullable;
#[cfg(test)]
mod tests;

pub use loops::first_loop;
pub use missing::first_missing;
pub use nullable::nullable_rules;
