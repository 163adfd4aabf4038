//! Writes a loaded book back as bytes.

#![tactic(auto)]

mod book;
mod lines;
#[cfg(test)]
mod tests;
mod walk;
mod writer;

pub use book::write_book;
