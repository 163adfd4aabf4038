ghost use Rattle.std.specs.Prelude.{◌≡◌};
ghost use Rattle.books.specs.declared.fault.ExprFault.TheVariants.{InToken};
ghost use Rattle.books.specs.declared.fault.BookFault.TheVariants.{InExpr};

use tokens::{Spot, TokenFault};

/// Why the tokens at a spot are no expression or line of a book.
#[derive(Clone, Copy, PartialEq, Eq, Debug)]
pub enum ExprFault {
    /// There is no token.
    InToken(TokenFault),
    /// A token that the layout does not want, or the end.
    Unwanted(Spot),
    /// An expression nested past 64.
    TooDeep(Spot),
}

/// Why a book is refused.
#[derive(Clone, Copy, PartialEq, Eq, Debug)]
pub enum BookFault {
    /// A line or an expression that cannot be read.
    InExpr(ExprFault),
    /// More than 32,768 bytes.
    TooLong(Spot),
    /// One class, rule or expression too many.
    TooMany(Spot),
    /// A class that is not lawful for the kind.
    Unlawful(Spot),
    /// A `term` without such a class, or a `call` without such a rule.
    Missing(Spot),
    /// A `star` of a nullable expression.
    Loop(Spot),
}

/// The layer of the reader that finds a fault.
#[derive(Clone, Copy, PartialEq, Eq, Debug)]
pub enum Layer {
    Tokens,
    Expressions,
    Book,
}

impl From<TokenFault> for ExprFault {
    ghost from_gives = { λ e r. r ≡ InToken e };

    fn from(e: TokenFault) -> ExprFault {
        ExprFault::InToken(e)
    }
}

impl From<ExprFault> for BookFault {
    ghost from_gives = { λ e r. r ≡ InExpr e };

    fn from(e: ExprFault) -> BookFault {
        BookFault::InExpr(e)
    }
}
