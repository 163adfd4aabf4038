//! The lexer of a book: tokens, cut from the bytes one at a time as they are asked for, and the
//! spots where something is wrong.

#![tactic(auto)]

mod lexer;
mod spot;
#[cfg(test)]
mod tests;
mod token;

pub use lexer::next_token;
pub use spot::{Spot, spot_at};
pub use token::{Token, TokenFault, Word};
