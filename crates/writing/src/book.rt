ghost use Rattle.std.specs.Prelude.{◌≡◌, length, if◌then◌else◌, Some, None, nat_le};
ghost use Rattle.grammar.specs.Expr.{Grammar};
ghost use Rattle.grammar.specs.Spelling.{spelling};
ghost use Rattle.grammar.specs.Held.{Holds};
ghost use Rattle.writing.specs.Wrote.{Wrote};

use crate::writer::Writer;
use grammar::Book;

/// Writes the book into `out` and answers how many bytes that took; bytes past them stay. Answers
/// none, and touches nothing, when `out` is too short.
#[tactic(auto, using(crate::proofs::Held::lines_count))]
pub fn write_book(book: &Book, out: &mut [u8]) -> Option<usize>
    ensures answer { result ≡ (if nat_le book.now.length (length out.old) then Some book.now.length else None) }
    ensures refused { result ≡ None → out.new ≡ out.old }
    ensures wrote { (g : Grammar) → Holds book.now g → Wrote (spelling g) out.old result out.new }
{
    if out.len() < book.length {
        return None;
    }
    let mut writer = Writer { out, count: 0 };
    writer.put_book(book);
    Some(writer.count)
}
