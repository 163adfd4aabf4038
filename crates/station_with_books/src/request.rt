use crate::answers::{Counts, ShowRefusal};
use books::BookFault;

/// A call, as a value.
#[derive(Clone, Copy, PartialEq, Eq, Debug)]
pub enum Request<'a> {
    /// Load these bytes.
    Load(&'a [u8]),
    /// Show the book in so many bytes at the front of the lent buffer, or in all that it has.
    Show(usize),
    Bill,
    Settle,
}

/// A reply, as a value.
#[derive(Clone, Copy, PartialEq, Eq, Debug)]
pub enum Answer {
    /// The counts of the book that was loaded, or what is wrong with it.
    Loaded(Result<Counts, BookFault>),
    /// How many bytes the book was shown in, or why it was not.
    Shown(Result<usize, ShowRefusal>),
    /// The steps on the bill, of `Bill` and `Settle`.
    Total(u64),
}
