ghost use Rattle.std.specs.Prelude.{◌≡◌};
ghost use Rattle.grammar.specs.Expr.{Grammar};
ghost use Rattle.grammar.specs.Allowed.{expressions, Loop, Found};
ghost use Rattle.grammar.specs.Held.{Holds};
ghost use Rattle.analyses.specs.Decided.{LoopFound, LoopOnce};

use crate::nullable::{flag_nodes, nullable_rules};
use grammar::{Book, Operator};

/// The place of the earliest `star` of a nullable expression, which could go round for ever.
pub fn first_loop(book: &Book) -> Option<u16>
    ensures first { (g : Grammar) → Holds book.now g → Found (Loop g) (expressions g) result }
    ensures found { LoopFound }
    ensures once { LoopOnce }
{
    let rules = nullable_rules(book);
    let flags = flag_nodes(&book.table, &rules);
    // the operand of a `star` is the next node
    let operands = flags.iter().skip(1);
    book.table
        .nodes()
        .iter()
        .zip(operands)
        .find(|(node, operand)| node.operator == Operator::Star && **operand)
        .map(|(node, _)| node.place)
}
