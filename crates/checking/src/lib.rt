//! What the program `bookcheck` says of a book, as bytes to print.
//!
//! Of an accepted book, its counts and the book as a station shows it. Of a refused one, its fault: a
//! line for other programs, what the fault means, and the place, with a caret under it.

#![tactic(auto)]

mod asking;
mod escape;
mod excerpt;
mod line;
mod pointing;
mod program;
mod report;
#[cfg(test)]
mod tests;
mod words;

pub use asking::{MOST_INPUT, check};
pub use escape::{Escape, Escapes, put_escaped};
pub use excerpt::{BYTES_AFTER, BYTES_BEFORE, Excerpt};
pub use line::Line;
pub use pointing::put_pointer;
pub use program::run;
pub use report::{put_acceptance, put_refusal};
