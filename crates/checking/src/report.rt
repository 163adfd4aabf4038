ghost use Rattle.std.specs.Prelude.{◌≡◌, ℕ, List, ◌++◌, IfOk, string_bytes, OnOk, codes};
ghost use Rattle.checking.specs.Reports.{Refusal, acceptance, acceptance_head_lem, refusal_head_lem};

use crate::pointing::put_pointer;
use crate::words::meaning;
use books::BookFault;
use station_with_books::Counts;
use std::alloc::{AllocError, Global};
use tokens::Spot;

/// Puts what is said of an accepted book at the end of a text: a line with its counts, as in
/// `book accepted: classes 2, rules 1, expressions 4`, and then the book as it was shown.
pub fn put_acceptance(text: &mut Vec<u8>, counts: Counts, book: &[u8]) -> Result<(), AllocError>
    ensures { OnOk result (text.new.items ≡ text.old.items ++ acceptance counts book.now) }
{
    let head = acceptance_head(*text.allocator(), counts)?;
    text.extend_from_slice(head.as_bytes())?;
    text.extend_from_slice(book)
}

/// Puts what is said of a refused book at the end of a text, four lines: the fault's number, line and
/// place; what that means; the line of the book; and a caret under the place.
pub fn put_refusal(text: &mut Vec<u8>, book: &[u8], fault: &BookFault) -> Result<(), AllocError>
    ensures { OnOk result ((said : List ℕ) × Refusal book.now fault.now said × (text.new.items ≡ text.old.items ++ said)) }
{
    let head = refusal_head(*text.allocator(), fault)?;
    text.extend_from_slice(head.as_bytes())?;
    put_pointer(text, book, fault.spot().place)
}

fn acceptance_head(heap: Global, counts: Counts) -> Result<String, AllocError>
    ensures { IfOk result (λ s. string_bytes s ≡ acceptance_head_lem counts) }
{
    let Counts {
        classes,
        rules,
        expressions,
    } = counts;
    format!(in heap; "book accepted: classes {classes}, rules {rules}, expressions {expressions}\n")
}

// The line for other programs, and what the fault means.
fn refusal_head(heap: Global, fault: &BookFault) -> Result<String, AllocError>
    ensures { IfOk result (λ s. (words : List ℕ) × (string_bytes s ≡ refusal_head_lem fault.now ++ words ++ codes "\n")) }
{
    let number = fault.number();
    let Spot { place, line } = fault.spot();
    let meaning = meaning(fault);
    format!(in heap; "book {number} line {line} place {place}\n{meaning}\n")
}
