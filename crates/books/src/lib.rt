//! Books: what an issuer sends, read into the tables of a grammar, or refused with the first fault.

#![tactic(auto)]

mod book;
mod fault;
mod head;
mod reader;
mod telling;
#[cfg(test)]
mod tests;

pub use book::{MOST_BYTES, read_book};
pub use fault::{BookFault, ExprFault, Layer};
