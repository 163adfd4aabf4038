//! The station: it reads records by a book and keeps the bill.
//!
//! A station is made for a kind of symbol, with no book, nothing on the bill and no reads counted.
//! `load` takes a book, `show` writes it back, `bill` answers the sum and `settle` answers it and
//! starts again; reading comes later. The law over every list of calls stands on `Station::new` and
//! on `serve`.
//!
//! The crate `station` has the calls of the bill alone. Both stand, for its law was delivered as it is, and with
//! books the law has more calls; the two become one when books are delivered.

#![tactic(auto)]

mod answers;
mod request;
mod serving;
mod state;
#[cfg(test)]
mod tests;

pub use answers::{Counts, ShowRefusal};
pub use request::{Answer, Request};
pub use serving::serve;
pub use state::Station;
