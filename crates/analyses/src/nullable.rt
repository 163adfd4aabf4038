ghost use Rattle.std.specs.Prelude.{◌≡◌, ◌<◌, false, length, slice_index_or};
ghost use Rattle.grammar.specs.Expr.{Grammar};
ghost use Rattle.grammar.specs.Tables.{laid, listed};
ghost use Rattle.grammar.specs.Held.{Holds};
ghost use Rattle.analyses.specs.Nulls.{MarksRight};
ghost use Rattle.analyses.specs.Rounds.{flag_of, Flagged, Round};
ghost use Rattle.analyses.specs.Decided.{NullableDecided};

use grammar::{Book, MOST_EXPRESSIONS, MOST_RULES, Node, Operator, Roots, Table};

/// Which rules are nullable: a mark for each rule that there may be, in fixed memory.
///
/// It goes round until a round marks no rule. There are at most 32 rules to mark, so at most 33
/// rounds of at most 512 nodes.
pub fn nullable_rules(book: &Book) -> [bool; MOST_RULES]
    ensures right { (g : Grammar) → Holds book.now g → MarksRight g.rules result }
    ensures decided { NullableDecided }
{
    let mut marks = [false; MOST_RULES];
    loop {
        let flags = flag_nodes(&book.table, &marks);
        if !mark_rules(&book.roots, &flags, &mut marks) {
            return marks;
        }
    }
}

// Marks each rule whose root is flagged; says whether a mark is new.
fn mark_rules(
    roots: &Roots,
    flags: &[bool; MOST_EXPRESSIONS],
    marks: &mut [bool; MOST_RULES],
) -> bool
    ensures { Round (length (listed roots.now)) (listed roots.now) flags.now marks.old marks.new result }
{
    let mut changed = false;
    // not `marks.iter_mut().zip(..)`: after such a loop a proof knows nothing of the marks
    for (n, root) in roots.as_slice().iter().enumerate() {
        if !marks[n] && flag_at(flags, usize::from(*root)) {
            marks[n] = true;
            changed = true;
        }
    }
    changed
}

// Which nodes are nullable, if exactly the marked rules are. A node's parts come after it, so the
// pass goes from the last node to the first.
pub(crate) fn flag_nodes(table: &Table, marks: &[bool; MOST_RULES]) -> [bool; MOST_EXPRESSIONS]
    ensures { Flagged 0 (laid table.now) marks.now result }
{
    let nodes = table.nodes();
    let mut flags = [false; MOST_EXPRESSIONS];
    for (i, node) in nodes.iter().enumerate().rev() {
        flags[i] = flag_node(node.operator, nodes, marks, &flags, i);
    }
    flags
}

// Whether a node is nullable, when the nodes after it are flagged.
fn flag_node(operator: Operator, nodes: &[Node], marks: &[bool], flags: &[bool], i: usize) -> bool
    requires { i < 512 }
    ensures { result ≡ flag_of nodes.now marks.now flags.now i operator }
{
    let first = i + 1;
    let second = nodes.get(first).map_or(0, |next| next.end);
    match operator {
        Operator::Empty | Operator::Star | Operator::Not => true,
        Operator::Any | Operator::Term(_) => false,
        Operator::Call(rule) => flag_at(marks, rule as usize),
        Operator::Seq => flag_at(flags, first) && flag_at(flags, usize::from(second)),
        Operator::Alt => flag_at(flags, first) || flag_at(flags, usize::from(second)),
    }
}

// The flag with this number; past the flags it is not set.
fn flag_at(flags: &[bool], i: usize) -> bool
    ensures { result ≡ slice_index_or flags.now i false }
{
    flags.get(i).copied().unwrap_or(false)
}
