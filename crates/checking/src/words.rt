use books::{BookFault, ExprFault};
use tokens::TokenFault;

/// What a fault means and where its place points, in one line of plain words.
// A fixed text, and nothing to format; a `Display` would have to state this table once more as its output.
pub(crate) fn meaning(fault: &BookFault) -> &'static str {
    match *fault {
        BookFault::TooLong(_) => {
            "a book has at most 32768 bytes, and this one has more; the place is its start"
        }
        BookFault::InExpr(ExprFault::InToken(TokenFault::Stray(_))) => {
            "no word, number, bracket, space or line feed begins with this byte; the place is the byte"
        }
        BookFault::InExpr(ExprFault::InToken(TokenFault::BadNumber(_))) => {
            "a number has no leading zero and is at most 4294967295; the place is its first digit"
        }
        BookFault::InExpr(ExprFault::Unwanted(_)) => {
            "the layout of a book does not allow this here; the place is the first word, number or sign that does not fit, or the end"
        }
        BookFault::TooMany(_) => {
            "a book has at most 64 classes, 32 rules and 512 expressions; the place is the opening bracket of the first one too many"
        }
        BookFault::InExpr(ExprFault::TooDeep(_)) => {
            "expressions are nested at most 64 deep; the place is the opening bracket of the first one too deep"
        }
        BookFault::Unlawful(_) => {
            "a class of bytes goes from its first number up to its second, which is at most 255; the place is the opening bracket of the class"
        }
        BookFault::Missing(_) => {
            "there is no class or no rule of this number; the place is the opening bracket of the expression that names it"
        }
        BookFault::Loop(_) => {
            "a star of an expression that can match nothing would go round for ever; the place is the star's opening bracket"
        }
    }
}
