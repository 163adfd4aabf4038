/// The operator of a parsing expression, with the number that a `term` or a `call` names.
#[derive(Clone, Copy, PartialEq, Eq, Default, Debug)]
pub enum Operator {
    #[default]
    Empty,
    Any,
    Term(u32),
    Call(u32),
    Seq,
    Alt,
    Star,
    Not,
}

/// An expression in the table: its operator, the index just past its last part, and the byte place
/// of its opening bracket. Its first part is the next node; its second part begins where the first
/// ends.
// Indices and no boxes: a book lies in fixed memory, without a heap.
#[derive(Clone, Copy, PartialEq, Eq, Default, Debug)]
pub struct Node {
    pub operator: Operator,
    pub end: u16,
    pub place: u16,
}
