//! What a symbol is, and which symbols a class holds.
//!
//! A book describes each of its classes by two numbers. A *kind* says what the two numbers mean:
//! which pairs are lawful, and which symbols lie in each. Everything above is written once, for
//! every kind.

#![tactic(auto)]

mod bytes;
mod class;
mod commands;
mod kind;
#[cfg(test)]
mod tests;

pub use bytes::ByteKind;
pub use class::Class;
pub use commands::{CommandKind, Header};
pub use kind::Kind;
