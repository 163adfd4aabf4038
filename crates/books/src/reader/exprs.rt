ghost use Rattle.std.specs.Prelude.{◌≡◌, ◌+◌, MatchResult};
ghost use Rattle.tokens.specs.Out.{no};
ghost use Rattle.books.specs.Reading.{operand, operands, expression};
ghost use Rattle.books.specs.Steps.{rest, count, Grows, Filled};

use crate::fault::{BookFault, ExprFault};
use crate::head::Head;
use crate::reader::Reader;
use grammar::{Operator, Table};
use tokens::Token;

impl Reader<'_> {
    // Reads an expression nested at most `left` deep into the table.
    // `left` and `table` are no one value: the first goes down with each nesting, the second only grows.
    #[cycle(exprs)]
    #[tactic(auto, using(crate::proofs::Grows::expr_steps), unfolding(crate::specs::Reading::bracketed))]
    fn expr(&mut self, left: u8, table: &mut Table) -> Result<(), BookFault>
        ensures { Grows (expression self.old.bytes.now left (count table.old)) self.old.at self.old result self.new table.old table.new }
    {
        let start = self.at;
        self.expect(Token::Open)?;
        let head = self.head()?;
        let Some(slot) = table.reserve() else {
            return Err(BookFault::TooMany(self.spot_of(start)));
        };
        if left == 0 {
            return Err(BookFault::InExpr(ExprFault::TooDeep(self.spot_of(start))));
        }
        let operator = self.operands(left - 1, head, table)?;
        self.expect(Token::Close)?;
        // the place fits, since the book is short
        table.fill(slot, operator, start as u16);
        Ok(())
    }

    // Reads what an expression's word asks for after it.
    #[cycle(exprs)]
    #[tactic(auto, unfolding(crate::specs::Reading::operands))]
    fn operands(&mut self, left: u8, head: Head, table: &mut Table) -> Result<Operator, BookFault>
        ensures { MatchResult result
            (λ operator. Filled (operands self.old.bytes.now (expression self.old.bytes.now left) head (count table.old)) head self.old self.new table.old table.new operator)
            (λ e. operands self.old.bytes.now (expression self.old.bytes.now left) head (count table.old) self.old.at (rest self.old) ≡ no e) }
    {
        match head {
            Head::Leaf(leaf) => Ok(Operator::from(leaf)),
            Head::Numbered(numbered) => {
                self.expect(Token::Space)?;
                let value = self.number()?;
                Ok(numbered.operator(value))
            }
            Head::One(one) => {
                self.operand(left, table)?;
                Ok(Operator::from(one))
            }
            Head::Two(two) => {
                self.operand(left, table)?;
                self.operand(left, table)?;
                Ok(Operator::from(two))
            }
        }
    }

    // Reads a space and an expression.
    #[cycle(exprs)]
    #[tactic(auto, unfolding(crate::specs::Reading::operand))]
    pub(super) fn operand(&mut self, left: u8, table: &mut Table) -> Result<(), BookFault>
        ensures { Grows (operand self.old.bytes.now (expression self.old.bytes.now left) (count table.old)) (self.old.at + 1) self.old result self.new table.old table.new }
    {
        self.expect(Token::Space)?;
        self.expr(left, table)
    }
}
