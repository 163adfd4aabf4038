ghost use Rattle.std.specs.Prelude.{◌≡◌};
ghost use Rattle.grammar.specs.Expr.{Grammar};
ghost use Rattle.grammar.specs.Allowed.{expressions, Missing, Found};
ghost use Rattle.grammar.specs.Held.{Holds};
ghost use Rattle.analyses.specs.Search.{lacks};
ghost use Rattle.analyses.specs.Decided.{MissingFound, MissingOnce};

use grammar::{Book, Operator};

/// The place of the earliest `term` or `call` that names no class or rule of the book.
pub fn first_missing(book: &Book) -> Option<u16>
    ensures first { (g : Grammar) → Holds book.now g → Found (Missing g) (expressions g) result }
    ensures found { MissingFound }
    ensures once { MissingOnce }
{
    let classes = book.classes.count();
    let rules = book.roots.count();
    // not `find(..)`: its chain takes up to half as long again
    for node in book.table.nodes() {
        if is_missing(node.operator, classes, rules) {
            return Some(node.place);
        }
    }
    None
}

// Whether the operator names a class or a rule that is not there.
fn is_missing(operator: Operator, classes: usize, rules: usize) -> bool
    ensures { result ≡ lacks classes rules operator }
{
    match operator {
        Operator::Term(class) => class as usize >= classes,
        Operator::Call(rule) => rule as usize >= rules,
        _ => false,
    }
}
