//! Grammars: what a book means, and the tables in which a loaded book is kept.

#![tactic(auto)]

mod book;
mod classes;
mod limited;
mod node;
mod roots;
mod table;
#[cfg(test)]
mod tests;

pub use book::Book;
pub use classes::{Classes, MOST_CLASSES};
pub use limited::Limited;
pub use node::{Node, Operator};
pub use roots::{MOST_RULES, Roots};
pub use table::{MOST_EXPRESSIONS, Table};
