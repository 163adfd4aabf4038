ghost use Rattle.grammar.specs.Layout.{Known};

use crate::classes::Classes;
use crate::roots::Roots;
use crate::table::Table;

/// A loaded book: its classes, its expressions, its rules' roots, and how many bytes it takes.
/// The tables hold a grammar: no book exists whose tables do not.
#[derive(Clone, Copy, Drop)]
pub struct Book {
    pub classes: Classes,
    pub table: Table,
    pub roots: Roots,
    pub length: usize,
    ghost known: { Known classes table roots length },
}
