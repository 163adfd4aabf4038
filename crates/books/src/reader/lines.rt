ghost use Rattle.std.specs.Prelude.{◌≡◌, [], codes, MatchResult};
ghost use Rattle.tokens.specs.Out.{no};
ghost use Rattle.grammar.specs.Allowed.{past};
ghost use Rattle.grammar.specs.Tables.{listed};
ghost use Rattle.books.specs.Reading.{line_start_lem, class_numbers_lem, class_line, class_lines, rule_line, rule_lines};
ghost use Rattle.books.specs.Steps.{rest, Stepped, Follows, count, Grows, Ruled};

use crate::fault::{BookFault, ExprFault};
use crate::head::LineWord;
use crate::reader::Reader;
use grammar::{Classes, MOST_CLASSES, MOST_RULES, Roots, Table};
use kinds::{Class, Kind};
use tokens::{Token, Word};

/// How deep the expressions of a book may be nested.
pub const MOST_NESTED: u8 = 64;

impl Reader<'_> {
    // Reads the bracket and the word with which a line begins.
    #[tactic(auto, unfolding(crate::specs::Reading::line_start_lem))]
    fn line_start(&mut self) -> Result<LineWord, ExprFault>
        ensures { Follows (line_start_lem self.old.bytes.now) self.old result self.new }
    {
        self.expect(Token::Open)?;
        self.line_word()
    }

    // Reads the class of a line, past its word.
    #[tactic(auto, unfolding(crate::specs::Reading::class_numbers_lem))]
    fn class_numbers(&mut self) -> Result<Class, ExprFault>
        ensures { Follows (class_numbers_lem self.old.bytes.now) self.old result self.new }
    {
        self.expect(Token::Space)?;
        let first = self.number()?;
        self.expect(Token::Space)?;
        let second = self.number()?;
        self.expect(Token::Close)?;
        Ok(Class { first, second })
    }

    // Reads what the class line that begins at `start` has after its word.
    #[tactic(auto, unfolding(crate::specs::Reading::class_line))]
    fn class<K: Kind>(&mut self, kind: &K, start: usize) -> Result<Class, BookFault>
        ensures { Follows (class_line self.old.bytes.now (K.Kind.lawful kind.now) start) self.old result self.new }
    {
        let class = self.class_numbers()?;
        if !kind.is_lawful(class) {
            return Err(BookFault::Unlawful(self.spot_of(start)));
        }
        self.expect(Token::Feed)?;
        Ok(class)
    }

    // Reads the class lines, up to the first rule line.
    #[tactic(auto, using(crate::proofs::Rows::class_steps))]
    pub(crate) fn classes<K: Kind>(&mut self, kind: &K) -> Result<Classes, BookFault>
        ensures { MatchResult result
            (λ classes. Stepped (class_lines self.old.bytes.now (K.Kind.lawful kind.now) 64 [] self.old.at (rest self.old)) self.old (listed classes) self.new)
            (λ e. class_lines self.old.bytes.now (K.Kind.lawful kind.now) 64 [] self.old.at (rest self.old) ≡ no e) }
    {
        let mut classes = Classes::new();
        loop {
            let start = self.at;
            match self.line_start()? {
                LineWord::Rule => {
                    // the rule line is read from its start
                    self.at = start;
                    return Ok(classes);
                }
                LineWord::Class => {
                    // found at the word, before there is a class to push
                    if classes.count() >= MOST_CLASSES {
                        return Err(BookFault::TooMany(self.spot_of(start)));
                    }
                    let class = self.class(kind, start)?;
                    classes.push(class);
                }
            }
        }
    }

    // Reads a rule line into the table, where there may be `left` more rules.
    #[tactic(auto, unfolding(crate::specs::Reading::rule_line))]
    fn rule(&mut self, left: usize, table: &mut Table) -> Result<(), BookFault>
        ensures { Grows (rule_line self.old.bytes.now left (count table.old)) (past self.old.at (codes "rule")) self.old result self.new table.old table.new }
    {
        let start = self.at;
        self.expect(Token::Open)?;
        self.expect(Token::Letters(Word::Rule))?;
        if left == 0 {
            return Err(BookFault::TooMany(self.spot_of(start)));
        }
        self.operand(MOST_NESTED, table)?;
        self.expect(Token::Close)?;
        Ok(self.expect(Token::Feed)?)
    }

    // Reads the rule lines, up to the end of the book.
    #[tactic(auto, using(crate::proofs::Ruled::begun_none))]
    pub(crate) fn rules(&mut self) -> Result<(Table, Roots), BookFault>
        ensures { MatchResult result
            (λ p. Ruled self.old p.0 p.1)
            (λ e. rule_lines self.old.bytes.now 32 [] 0 self.old.at (rest self.old) ≡ no e) }
    {
        let mut table = Table::new();
        let mut roots = Roots::new();
        loop {
            let root = table.count();
            self.rule(MOST_RULES - roots.count(), &mut table)?;
            roots.push(root);
            if self.is_done() {
                return Ok((table, roots));
            }
        }
    }
}
