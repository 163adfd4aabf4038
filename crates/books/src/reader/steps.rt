ghost use Rattle.std.specs.Prelude.{◌≡◌, ◌≤◌, ◌==◌, length, MatchResult};
ghost use Rattle.tokens.specs.Out.{no};
ghost use Rattle.tokens.specs.Spots.{spot};
ghost use Rattle.books.specs.declared.fault.ExprFault.TheVariants.{Unwanted};
ghost use Rattle.books.specs.Reading.{expecting, numbering, heading, line_heading};
ghost use Rattle.books.specs.Steps.{rest, Stepped, Follows};

use crate::fault::ExprFault;
use crate::head::{Head, Leaf, LineWord, Numbered, One, Two};
use crate::reader::Reader;
use tokens::{Spot, Token, Word, next_token, spot_at};

impl<'a> Reader<'a> {
    // A reader at the front of a book.
    pub(crate) fn new(bytes: &'a [u8]) -> Reader<'a>
        requires { length bytes.now ≤ 32768 }
        ensures bytes { result.bytes.now ≡ bytes.now }
        ensures at { result.at ≡ 0 }
    {
        Reader { bytes, at: 0 }
    }

    // Whether nothing is left.
    pub(crate) fn is_done(&self) -> bool
        ensures { result ≡ (self.now.at == length self.now.bytes.now) }
    {
        self.at == self.bytes.len()
    }

    // The spot of a place in the book.
    pub(crate) fn spot_of(&self, place: usize) -> Spot
        ensures { result ≡ spot self.now.bytes.now place }
    {
        spot_at(self.bytes, place)
    }

    // The fault that another token is wanted here.
    fn unwanted(&self) -> ExprFault
        ensures { result ≡ Unwanted (spot self.now.bytes.now self.now.at) }
    {
        ExprFault::Unwanted(self.spot_of(self.at))
    }

    // The four calls below differ in what they make of the token. One call with a closure for that would need
    // a contract over all readings, and be no plainer.

    // Goes past this token, which has to come next.
    #[tactic(auto, unfolding(crate::specs::Reading::expecting))]
    pub(crate) fn expect(&mut self, token: Token) -> Result<(), ExprFault>
        ensures { MatchResult result
            (λ _. Stepped (expecting self.old.bytes.now token self.old.at (rest self.old)) self.old token self.new)
            (λ e. expecting self.old.bytes.now token self.old.at (rest self.old) ≡ no e) }
    {
        let (found, next) = next_token(self.bytes, self.at)?;
        if found != token {
            return Err(self.unwanted());
        }
        self.at = next;
        Ok(())
    }

    // Reads a number.
    #[tactic(auto, unfolding(crate::specs::Reading::numbering))]
    pub(crate) fn number(&mut self) -> Result<u32, ExprFault>
        ensures { Follows (numbering self.old.bytes.now) self.old result self.new }
    {
        let (Token::Number(number), next) = next_token(self.bytes, self.at)? else {
            return Err(self.unwanted());
        };
        self.at = next;
        Ok(number)
    }

    // Reads the word of an expression.
    #[tactic(auto, unfolding(crate::specs::Reading::heading))]
    pub(crate) fn head(&mut self) -> Result<Head, ExprFault>
        ensures { Follows (heading self.old.bytes.now) self.old result self.new }
    {
        let (token, next) = next_token(self.bytes, self.at)?;
        let head = match token {
            Token::Letters(Word::Empty) => Head::Leaf(Leaf::Empty),
            Token::Letters(Word::Any) => Head::Leaf(Leaf::Any),
            Token::Letters(Word::Term) => Head::Numbered(Numbered::Term),
            Token::Letters(Word::Call) => Head::Numbered(Numbered::Call),
            Token::Letters(Word::Seq) => Head::Two(Two::Seq),
            Token::Letters(Word::Alt) => Head::Two(Two::Alt),
            Token::Letters(Word::Star) => Head::One(One::Star),
            Token::Letters(Word::Not) => Head::One(One::Not),
            _ => return Err(self.unwanted()),
        };
        self.at = next;
        Ok(head)
    }

    // Reads the word of a line, past its opening bracket.
    #[tactic(auto, unfolding(crate::specs::Reading::line_heading))]
    pub(crate) fn line_word(&mut self) -> Result<LineWord, ExprFault>
        ensures { Follows (line_heading self.old.bytes.now) self.old result self.new }
    {
        let (token, next) = next_token(self.bytes, self.at)?;
        let word = match token {
            Token::Letters(Word::Class) => LineWord::Class,
            Token::Letters(Word::Rule) => LineWord::Rule,
            _ => return Err(self.unwanted()),
        };
        self.at = next;
        Ok(word)
    }
}
