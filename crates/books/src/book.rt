ghost use Rattle.std.specs.Prelude.{◌≡◌, ℕ, Bool, List, MatchResult};
ghost use Rattle.grammar.specs.Expr.{Grammar};
ghost use Rattle.grammar.specs.Held.{Holds};
ghost use Rattle.books.specs.Verdict.{Accepts, Refuses, AcceptedAsSpelled, SpelledOnce, OneVerdict};
ghost use Rattle.kinds.specs.declared.class.Class.{Class};

use crate::fault::BookFault;
use crate::reader::Reader;
use analyses::{first_loop, first_missing};
use grammar::Book;
use kinds::Kind;
use tokens::spot_at;

/// How many bytes a book may have.
pub const MOST_BYTES: usize = 32_768;

/// Reads a book, for a kind that says which classes are lawful: answers the tables that hold its
/// grammar, or the first fault.
///
/// It is accepted exactly when an allowed grammar spells it, and then that grammar is the one held.
/// The work is one pass over the bytes and at most 36 over the expressions: one for the names, at
/// most 34 for what is nullable, and one for the loops.
pub fn read_book<K: Kind>(kind: &K, bytes: &[u8]) -> Result<Book, BookFault>
    ensures verdict { MatchResult result
        (λ book. (g : Grammar) × Accepts (K.Kind.lawful kind.now) bytes.now g × Holds book g)
        (λ e. Refuses (K.Kind.lawful kind.now) bytes.now e) }
    ensures spelled { AcceptedAsSpelled }
    ensures once { SpelledOnce }
    ensures one { (lawful : Class → Bool) (bs : List ℕ) → OneVerdict lawful bs }
{
    if bytes.len() > MOST_BYTES {
        return Err(BookFault::TooLong(spot_at(bytes, 0)));
    }
    let mut reader = Reader::new(bytes);
    let classes = reader.classes(kind)?;
    let (table, roots) = reader.rules()?;
    let book = Book {
        classes,
        table,
        roots,
        length: bytes.len(),
    };
    if let Some(place) = first_missing(&book) {
        return Err(BookFault::Missing(spot_at(bytes, usize::from(place))));
    }
    if let Some(place) = first_loop(&book) {
        return Err(BookFault::Loop(spot_at(bytes, usize::from(place))));
    }
    Ok(book)
}
