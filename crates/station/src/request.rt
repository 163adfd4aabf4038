ghost use Rattle.std.specs.Prelude.{Some};
ghost use Rattle.station.specs.Printed.{printed};

use std::fmt;

/// A call, as a value.
#[derive(Clone, Copy, PartialEq, Eq, Debug)]
pub enum Request {
    Bill,
    Settle,
}

impl fmt::Display for Request {
    ghost output = { λ r. Some (printed r) };

    fn fmt<W: fmt::Write>(&self, f: &mut fmt::Formatter<W>) -> fmt::Result {
        f.write_str(match self {
            Request::Bill => "bill",
            Request::Settle => "settle",
        })
    }
}

/// A reply, as a value.
#[derive(Clone, Copy, PartialEq, Eq, Debug)]
pub enum Answer {
    /// The steps on the bill, of `Bill` and `Settle`.
    Total(u64),
}
