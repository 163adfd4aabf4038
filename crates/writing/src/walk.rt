ghost use Rattle.std.specs.Prelude.{◌≡◌, ◌++◌, [], length, drop};
ghost use Rattle.grammar.specs.Tables.{laid};
ghost use Rattle.stack.specs.Held.{held, SameLoan};
ghost use Rattle.writing.specs.Wrote.{Put, Room};
ghost use Rattle.writing.specs.Walk.{opening, ends, ends_at, closings, opened, still_open, walked};

use crate::writer::Writer;
use grammar::{Node, Operator, Table};
use stack::Stack;

/// An expression that is not closed yet: the index just past its last part.
#[derive(Clone, Copy)]
pub(crate) struct OpenExpr {
    pub end: u16,
}

// Whether the innermost open expression ends before the node `next`.
#[tactic(auto, using(crate::proofs::Ends::top_some, crate::proofs::Ends::top_none))]
fn ends_at(next: usize, stack: &Stack<'_, OpenExpr>) -> bool
    ensures { result ≡ ends_at next (ends (held stack.now)) }
{
    stack
        .top()
        .is_some_and(|open| usize::from(open.end) == next)
}

// The nodes from `first` on.
fn nodes_from(table: &Table, first: usize) -> &[Node]
    ensures { result.now ≡ drop first (laid table.now) }
{
    table.nodes().get(first..).unwrap_or_default()
}

impl Writer<'_> {
    // Writes the front of an expression: a space, the opening bracket, its word and its number.
    fn put_opening(&mut self, operator: Operator)
        requires { Room (opening operator) self.old }
        ensures { Put (opening operator) self.old self.new }
    {
        match operator {
            Operator::Empty => self.put(b" (empty"),
            Operator::Any => self.put(b" (any"),
            Operator::Term(class) => {
                self.put(b" (term");
                self.put_number(class);
            }
            Operator::Call(rule) => {
                self.put(b" (call");
                self.put_number(rule);
            }
            Operator::Seq => self.put(b" (seq"),
            Operator::Alt => self.put(b" (alt"),
            Operator::Star => self.put(b" (star"),
            Operator::Not => self.put(b" (not"),
        }
    }

    // Closes the expressions that end before the node `next`.
    fn put_closings(&mut self, next: usize, stack: &mut Stack<'_, OpenExpr>)
        requires { Room (closings next (ends (held stack.old))) self.old }
        ensures bytes { Put (closings next (ends (held stack.old))) self.old self.new }
        ensures left { ends (held stack.new) ≡ still_open next (ends (held stack.old)) }
        ensures same { SameLoan stack.old stack.new }
    {
        while ends_at(next, stack) {
            let _ = stack.pop();
            self.put(b")");
        }
    }

    /// Writes a space and the expression whose node is `start`.
    pub(crate) fn put_expr(&mut self, table: &Table, start: u16)
        requires { Room (walked start [] (drop start (laid table.now))) self.old }
        ensures { Put (walked start [] (drop start (laid table.now))) self.old self.new }
    {
        let mut records = [OpenExpr { end: 0 }; 64];
        let mut stack = Stack::new(&mut records);
        let first = usize::from(start);
        let nodes = nodes_from(table, first);
        for (i, node) in nodes.iter().enumerate() {
            self.put_opening(node.operator);
            let _ = stack.push(OpenExpr { end: node.end });
            self.put_closings(first + i + 1, &mut stack);
            if stack.is_empty() {
                return;
            }
        }
    }
}
