ghost use Rattle.std.specs.Prelude.{◌≡◌};
ghost use Rattle.books.specs.Faults.{told};

use crate::fault::{BookFault, ExprFault, Layer};
use tokens::{Spot, TokenFault};

impl BookFault {
    /// The fault's number, 1 to 9.
    // No discriminants: the nine lie in three enums, one inside the other.
    pub fn number(&self) -> u8
        ensures { result ≡ (told self.now).number }
    {
        match *self {
            BookFault::TooLong(_) => 1,
            BookFault::InExpr(ExprFault::InToken(TokenFault::Stray(_))) => 2,
            BookFault::InExpr(ExprFault::InToken(TokenFault::BadNumber(_))) => 3,
            BookFault::InExpr(ExprFault::Unwanted(_)) => 4,
            BookFault::TooMany(_) => 5,
            BookFault::InExpr(ExprFault::TooDeep(_)) => 6,
            BookFault::Unlawful(_) => 7,
            BookFault::Missing(_) => 8,
            BookFault::Loop(_) => 9,
        }
    }

    /// The layer that found it.
    pub fn layer(&self) -> Layer
        ensures { result ≡ (told self.now).layer }
    {
        match *self {
            BookFault::InExpr(ExprFault::InToken(_)) => Layer::Tokens,
            BookFault::InExpr(ExprFault::Unwanted(_) | ExprFault::TooDeep(_)) => Layer::Expressions,
            BookFault::TooLong(_)
            | BookFault::TooMany(_)
            | BookFault::Unlawful(_)
            | BookFault::Missing(_)
            | BookFault::Loop(_) => Layer::Book,
        }
    }

    /// Its byte place and line.
    pub fn spot(&self) -> Spot
        ensures { result ≡ (told self.now).spot }
    {
        match *self {
            BookFault::InExpr(
                ExprFault::InToken(TokenFault::Stray(spot) | TokenFault::BadNumber(spot))
                | ExprFault::Unwanted(spot)
                | ExprFault::TooDeep(spot),
            )
            | BookFault::TooLong(spot)
            | BookFault::TooMany(spot)
            | BookFault::Unlawful(spot)
            | BookFault::Missing(spot)
            | BookFault::Loop(spot) => spot,
        }
    }
}
