ghost use Rattle.std.specs.Prelude.{◌≡◌};
ghost use Rattle.books.specs.Heads.{leaf_op, numbered_op, one_op, two_op};

use grammar::Operator;

/// An operator with no operands.
#[derive(Clone, Copy)]
pub enum Leaf {
    Empty,
    Any,
}

/// An operator with a number.
#[derive(Clone, Copy)]
pub enum Numbered {
    Term,
    Call,
}

/// An operator with one operand.
#[derive(Clone, Copy)]
pub enum One {
    Star,
    Not,
}

/// An operator with two operands.
#[derive(Clone, Copy)]
pub enum Two {
    Seq,
    Alt,
}

/// What an expression's word asks for after it.
#[derive(Clone, Copy)]
pub enum Head {
    Leaf(Leaf),
    Numbered(Numbered),
    One(One),
    Two(Two),
}

/// The word of a line.
#[derive(Clone, Copy)]
pub enum LineWord {
    Class,
    Rule,
}

impl From<Leaf> for Operator {
    ghost from_gives = { λ leaf r. r ≡ leaf_op leaf };

    fn from(leaf: Leaf) -> Operator {
        match leaf {
            Leaf::Empty => Operator::Empty,
            Leaf::Any => Operator::Any,
        }
    }
}

impl From<One> for Operator {
    ghost from_gives = { λ one r. r ≡ one_op one };

    fn from(one: One) -> Operator {
        match one {
            One::Star => Operator::Star,
            One::Not => Operator::Not,
        }
    }
}

impl From<Two> for Operator {
    ghost from_gives = { λ two r. r ≡ two_op two };

    fn from(two: Two) -> Operator {
        match two {
            Two::Seq => Operator::Seq,
            Two::Alt => Operator::Alt,
        }
    }
}

impl Numbered {
    // The operator with its number.
    pub(crate) fn operator(self, value: u32) -> Operator
        ensures { result ≡ numbered_op self value }
    {
        match self {
            Numbered::Term => Operator::Term(value),
            Numbered::Call => Operator::Call(value),
        }
    }
}
