ghost use Rattle.std.specs.Prelude.{◌≡◌};
ghost use Rattle.tokens.specs.Lexing.{word_of};

use crate::spot::Spot;

/// What a run of small letters says.
#[derive(Clone, Copy, PartialEq, Eq, Debug)]
pub enum Word {
    Class,
    Rule,
    Empty,
    Any,
    Term,
    Call,
    Seq,
    Alt,
    Star,
    Not,
    /// Letters that are none of the words of a book.
    Other,
}

/// A token of a book.
#[derive(Clone, Copy, PartialEq, Eq, Debug)]
pub enum Token {
    /// `(`
    Open,
    /// `)`
    Close,
    /// One space.
    Space,
    /// One line feed.
    Feed,
    /// The longest run of the letters `a` to `z`.
    Letters(Word),
    /// The longest run of digits, as the number that it writes.
    Number(u32),
    /// No bytes are left.
    End,
}

/// Why no token begins at a spot.
#[derive(Clone, Copy, PartialEq, Eq, Debug)]
pub enum TokenFault {
    /// A byte that begins no token.
    Stray(Spot),
    /// A number with a needless leading zero, or over 4,294,967,295.
    BadNumber(Spot),
}

/// The word that letters spell.
impl From<&[u8]> for Word {
    ghost from_gives = { λ letters r. r ≡ word_of letters.now };

    fn from(letters: &[u8]) -> Word {
        match letters {
            b"class" => Word::Class,
            b"rule" => Word::Rule,
            b"empty" => Word::Empty,
            b"any" => Word::Any,
            b"term" => Word::Term,
            b"call" => Word::Call,
            b"seq" => Word::Seq,
            b"alt" => Word::Alt,
            b"star" => Word::Star,
            b"not" => Word::Not,
            _ => Word::Other,
        }
    }
}
