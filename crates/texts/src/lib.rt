//! Texts: what a station reads.
//!
//! A text means a list of at most 65,535 symbols and a mark that says whether it was cut short.
//! The texts here are views: none of them owns or copies its symbols, and each question is answered
//! in a time that does not grow with the text, only with the layers that are piled up.

#![tactic(auto)]

mod copy;
mod either;
mod join;
mod packed;
mod plain;
#[cfg(test)]
mod tests;
mod text;
mod window;

pub use copy::copy_symbols;
pub use either::Either;
pub use join::Join;
pub use packed::{MOST_BYTES, Packed};
pub use plain::Plain;
pub use text::{MOST_SYMBOLS, Text};
pub use window::Window;
