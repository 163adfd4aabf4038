ghost use Rattle.std.specs.Prelude.{◌≡◌};
ghost use Rattle.grammar.specs.Expr.{Grammar};
ghost use Rattle.grammar.specs.Held.{Holds};
ghost use Rattle.station_with_books.specs.Law.{counts_of};
ghost use Rattle.station_with_books.specs.Refusals.{show_number};

use grammar::Book;

/// How many classes, rules and expressions a book has.
#[derive(Clone, Copy, PartialEq, Eq, Debug)]
pub struct Counts {
    pub classes: u8,
    pub rules: u8,
    pub expressions: u16,
}

impl From<&Book> for Counts {
    ghost from_gives = { λ book counts. (g : Grammar) → Holds book.now g → counts ≡ counts_of g };

    fn from(book: &Book) -> Counts {
        Counts {
            classes: book.classes.count() as u8,
            rules: book.roots.count() as u8,
            expressions: book.table.count(),
        }
    }
}

/// Why a book is not shown.
#[derive(Clone, Copy, PartialEq, Eq, Debug)]
pub enum ShowRefusal {
    /// No book has been accepted yet.
    NoBook = 10,
    /// The buffer is shorter than the book.
    TooShort = 15,
}

impl ShowRefusal {
    /// The refusal's number.
    pub fn number(&self) -> u8
        ensures { result ≡ show_number self.now }
    {
        *self as u8
    }
}
