//! The station: it reads records by a book and keeps the bill.
//!
//! So far it keeps the bill. A station is made for a kind of symbol, with no book, nothing on the
//! bill and no reads counted; `bill` answers the sum and `settle` answers it and starts again. The
//! law over every list of calls stands on `Station::new` and on `serve`.

#![tactic(auto)]

mod request;
mod serving;
mod state;
#[cfg(test)]
mod tests;

pub use request::{Answer, Request};
pub use serving::serve;
pub use state::Station;
