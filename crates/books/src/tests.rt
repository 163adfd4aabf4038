use crate::book::{MOST_BYTES, read_book};
use crate::fault::Layer::{Book, Expressions, Tokens};
use crate::fault::{BookFault, ExprFault, Layer};
use kinds::{ByteKind, CommandKind, Kind};
use std::alloc::{AllocError, Global};
use std::process::Abort;
use tokens::{Spot, TokenFault};

// How many classes, rules and expressions were read; or the fault's number, layer, place and line.
fn answer<K: Kind>(
    kind: &K,
    bytes: &[u8],
) -> Result<(usize, usize, u16), (u8, Layer, usize, usize)> {
    read_book(kind, bytes)
        .map(|book| (book.classes.count(), book.roots.count(), book.table.count()))
        .map_err(|fault| {
            let Spot { place, line } = fault.spot();
            (fault.number(), fault.layer(), place, line)
        })
}

// A book of bytes is read, with so many classes, rules and expressions.
fn reads(rt: &impl Abort, bytes: &[u8], classes: usize, rules: usize, expressions: u16) {
    assert_eq!(rt; answer(&ByteKind, bytes), Ok((classes, rules, expressions)));
}

// This layer of the reader finds this fault in a book of bytes.
fn refused(rt: &impl Abort, layer: Layer, bytes: &[u8], number: u8, place: usize, line: usize) {
    assert_eq!(rt; answer(&ByteKind, bytes), Err((number, layer, place, line)));
}

// A book while it is written.
#[derive(Drop)]
struct Draft {
    text: Vec<u8>,
}

impl Draft {
    fn new(heap: Global) -> Draft {
        Draft {
            text: Vec::new(heap),
        }
    }

    // Writes the same bytes so many times.
    fn write(&mut self, times: usize, bytes: &[u8]) -> Result<(), AllocError> {
        for _ in 0..times {
            self.text.extend_from_slice(bytes)?;
        }
        Ok(())
    }

    // Writes rules, each of an `any` under so many `not`s.
    fn rules(&mut self, times: usize, nots: usize) -> Result<(), AllocError> {
        for _ in 0..times {
            self.write(1, b"(rule")?;
            self.write(nots, b" (not")?;
            self.write(1, b" (any)")?;
            self.write(nots, b")")?;
            self.write(1, b")\n")?;
        }
        Ok(())
    }
}

#[test]
fn small_books(rt: HostRuntime) {
    reads(&rt, b"(rule (empty))\n", 0, 1, 1);
    reads(
        &rt,
        b"(class 48 57)\n(rule (seq (term 0) (star (term 0))))\n",
        1,
        1,
        4,
    );
    reads(
        &rt,
        b"(class 0 255)\n(class 97 97)\n(rule (alt (call 1) (not (term 1))))\n(rule (any))\n",
        2,
        2,
        5,
    );
}

#[test]
fn a_book_that_stops_early(rt: HostRuntime) {
    refused(&rt, Expressions, b"", 4, 0, 1);
    refused(&rt, Expressions, b"(", 4, 1, 1);
    refused(&rt, Expressions, b"(class 0 0)\n", 4, 12, 2);
    refused(&rt, Expressions, b"(class 0 0)", 4, 11, 1);
    refused(&rt, Expressions, b"(rule (any))", 4, 12, 1);
    refused(&rt, Expressions, b"(rule (any))\n(rule", 4, 18, 2);
    refused(&rt, Expressions, b"(rule (term ", 4, 12, 1);
}

#[test]
fn a_token_that_is_not_wanted(rt: HostRuntime) {
    refused(&rt, Expressions, b"rule (any))\n", 4, 0, 1);
    refused(&rt, Expressions, b"(any)\n", 4, 1, 1);
    refused(&rt, Expressions, b"(rules (any))\n", 4, 1, 1);
    refused(&rt, Expressions, b"(rule  (any))\n", 4, 6, 1);
    refused(&rt, Expressions, b"(rule (any) )\n", 4, 11, 1);
    refused(&rt, Expressions, b"(rule (rule (any)))\n", 4, 7, 1);
    refused(&rt, Expressions, b"(rule (alt (any)))\n", 4, 16, 1);
    refused(&rt, Expressions, b"(rule (star (any) (any)))\n", 4, 17, 1);
    refused(&rt, Expressions, b"(rule (term any))\n", 4, 12, 1);
    refused(&rt, Expressions, b"(rule (any 1))\n", 4, 10, 1);
    refused(&rt, Expressions, b"(class 1)\n(rule (any))\n", 4, 8, 1);
    // an empty line, and lines past the end
    refused(&rt, Expressions, b"(class 0 0)\n\n(rule (any))\n", 4, 12, 2);
    refused(&rt, Expressions, b"(rule (any))\n\n", 4, 13, 2);
    refused(&rt, Expressions, b"(rule (any))\n)", 4, 13, 2);
}

#[test]
fn a_class_after_a_rule(rt: HostRuntime) -> Result<(), AllocError> {
    refused(&rt, Expressions, b"(rule (any))\n(class 0 0)\n", 4, 14, 2);
    // also where one more rule would be too many
    let mut draft = Draft::new(rt.alloc());
    draft.rules(32, 0)?;
    draft.write(1, b"(class 0 0)\n")?;
    refused(&rt, Expressions, draft.text.as_slice(), 4, 417, 33);
    Ok(())
}

#[test]
fn a_byte_that_begins_no_token(rt: HostRuntime) {
    refused(&rt, Tokens, b"\x80", 2, 0, 1);
    refused(&rt, Tokens, b"(rule (any))\r\n", 2, 12, 1);
    refused(&rt, Tokens, b"(class 0 0)\n(rule (Any))\n", 2, 19, 2);
    refused(&rt, Tokens, b"(rule (any))\n\xff", 2, 13, 2);
}

#[test]
fn numbers_at_their_edges(rt: HostRuntime) {
    reads(&rt, b"(class 0 0)\n(rule (term 0))\n", 1, 1, 1);
    refused(&rt, Tokens, b"(class 0 00)\n(rule (term 0))\n", 3, 9, 1);
    refused(&rt, Tokens, b"(class 0 0)\n(rule (term 00))\n", 3, 24, 2);
    refused(&rt, Tokens, b"(class 0 0)\n(rule (term 01))\n", 3, 24, 2);
    refused(&rt, Book, b"(rule (call 4294967295))\n", 8, 6, 1);
    refused(&rt, Tokens, b"(rule (call 4294967296))\n", 3, 12, 1);
    assert_eq!(rt;
        answer(
            &CommandKind,
            b"(class 4294967295 4294967295)\n(rule (term 0))\n",
        ),
        Ok((1, 1, 1))
    );
    assert_eq!(rt;
        answer(
            &CommandKind,
            b"(class 4294967295 4294967296)\n(rule (term 0))\n",
        ),
        Err((3, Tokens, 18, 1))
    );
}

#[test]
fn a_bad_number_where_none_is_wanted(rt: HostRuntime) {
    refused(&rt, Tokens, b"(rule 00", 3, 6, 1);
    refused(&rt, Expressions, b"(rule 0", 4, 6, 1);
    refused(&rt, Tokens, b"(class 0 0)\n007", 3, 12, 2);
}

#[test]
fn a_book_has_at_most_64_classes(rt: HostRuntime) -> Result<(), AllocError> {
    let mut draft = Draft::new(rt.alloc());
    draft.write(64, b"(class 0 0)\n")?;
    let full = draft.text.len();
    draft.rules(1, 0)?;
    reads(&rt, draft.text.as_slice(), 64, 1, 1);
    draft.text.truncate(full);
    draft.write(1, b"(class 0 0)\n(rule (any))\n")?;
    refused(&rt, Book, draft.text.as_slice(), 5, 768, 65);
    // at the word: before its numbers are looked at, and after another word
    draft.text.truncate(full);
    draft.write(1, b"(class 1 00")?;
    refused(&rt, Book, draft.text.as_slice(), 5, 768, 65);
    draft.text.truncate(full);
    draft.write(1, b"(any)\n")?;
    refused(&rt, Expressions, draft.text.as_slice(), 4, 769, 65);
    Ok(())
}

#[test]
fn a_book_has_at_most_32_rules(rt: HostRuntime) -> Result<(), AllocError> {
    let mut draft = Draft::new(rt.alloc());
    draft.rules(32, 0)?;
    let full = draft.text.len();
    reads(&rt, draft.text.as_slice(), 0, 32, 32);
    draft.rules(1, 0)?;
    refused(&rt, Book, draft.text.as_slice(), 5, 416, 33);
    draft.text.truncate(full);
    draft.write(1, b"(rule\x80")?;
    refused(&rt, Book, draft.text.as_slice(), 5, 416, 33);
    draft.text.truncate(full);
    draft.write(1, b"(rul")?;
    refused(&rt, Expressions, draft.text.as_slice(), 4, 417, 33);
    Ok(())
}

#[test]
fn a_book_has_at_most_512_expressions(rt: HostRuntime) -> Result<(), AllocError> {
    // 31 rules of 16 expressions, each in 103 bytes
    let mut draft = Draft::new(rt.alloc());
    draft.rules(31, 15)?;
    let most = draft.text.len();
    draft.rules(1, 15)?;
    reads(&rt, draft.text.as_slice(), 0, 32, 512);
    draft.text.truncate(most);
    draft.rules(1, 16)?;
    refused(&rt, Book, draft.text.as_slice(), 5, 3279, 32);
    // at the word: before what comes after it, and not for another word
    draft.text.truncate(most);
    draft.write(1, b"(rule")?;
    draft.write(16, b" (not")?;
    let full = draft.text.len();
    draft.write(1, b" (term\x80")?;
    refused(&rt, Book, draft.text.as_slice(), 5, 3279, 32);
    draft.text.truncate(full);
    draft.write(1, b" (terms")?;
    refused(&rt, Expressions, draft.text.as_slice(), 4, 3280, 32);
    draft.text.truncate(full);
    draft.write(1, b" (class")?;
    refused(&rt, Expressions, draft.text.as_slice(), 4, 3280, 32);
    Ok(())
}

#[test]
fn expressions_are_nested_at_most_64_deep(rt: HostRuntime) -> Result<(), AllocError> {
    let mut draft = Draft::new(rt.alloc());
    draft.rules(1, 63)?;
    reads(&rt, draft.text.as_slice(), 0, 1, 64);
    draft.rules(1, 64)?;
    // the second line begins at 391
    refused(&rt, Expressions, draft.text.as_slice(), 6, 717, 2);
    // a word that is not wanted is found before
    draft.text.truncate(0);
    draft.write(1, b"(rule")?;
    draft.write(64, b" (not")?;
    draft.write(1, b" (class")?;
    refused(&rt, Expressions, draft.text.as_slice(), 4, 327, 1);
    Ok(())
}

#[test]
fn an_expression_too_many_and_too_deep(rt: HostRuntime) -> Result<(), AllocError> {
    // 448 expressions in 7 rules, each in 391 bytes; then 64, each in the one before
    let mut draft = Draft::new(rt.alloc());
    draft.rules(7, 63)?;
    draft.rules(1, 64)?;
    refused(&rt, Book, draft.text.as_slice(), 5, 3063, 8);
    Ok(())
}

#[test]
fn a_book_has_at_most_32768_bytes(rt: HostRuntime) -> Result<(), AllocError> {
    assert_eq!(rt; MOST_BYTES, 32_768);
    // a book within the other limits is far shorter, so only the fault tells
    let mut draft = Draft::new(rt.alloc());
    draft.write(32_768, b"(")?;
    refused(&rt, Expressions, draft.text.as_slice(), 4, 1, 1);
    draft.write(1, b"(")?;
    refused(&rt, Book, draft.text.as_slice(), 1, 0, 1);
    draft.text.truncate(0);
    draft.write(1, b"(rule (any))\n")?;
    draft.write(32_755, b"\n")?;
    refused(&rt, Expressions, draft.text.as_slice(), 4, 13, 2);
    draft.write(1, b"\n")?;
    refused(&rt, Book, draft.text.as_slice(), 1, 0, 1);
    Ok(())
}

#[test]
fn a_class_that_is_not_lawful(rt: HostRuntime) {
    refused(&rt, Book, b"(class 2 1)\n(rule (any))\n", 7, 0, 1);
    refused(
        &rt,
        Book,
        b"(class 0 255)\n(class 0 256)\n(rule (any))\n",
        7,
        14,
        2,
    );
    // found at the closing bracket, before the line feed is missed
    refused(&rt, Book, b"(class 2 1)", 7, 0, 1);
    refused(&rt, Book, b"(class 0 0)\n(class 2 1)\x80", 7, 12, 2);
    refused(&rt, Expressions, b"(class 2 1", 4, 10, 1);
    refused(&rt, Expressions, b"(class 2 1 ", 4, 10, 1);
}

#[test]
fn a_class_is_lawful_for_its_kind(rt: HostRuntime) {
    let mask = b"(class 65280 256)\n(rule (term 0))\n";
    assert_eq!(rt; answer(&CommandKind, mask), Ok((1, 1, 1)));
    refused(&rt, Book, mask, 7, 0, 1);
    let range = b"(class 1 2)\n(rule (term 0))\n";
    reads(&rt, range, 1, 1, 1);
    assert_eq!(rt; answer(&CommandKind, range), Err((7, Book, 0, 1)));
}

#[test]
fn the_earliest_number_that_is_not_there(rt: HostRuntime) {
    refused(&rt, Book, b"(rule (term 0))\n", 8, 6, 1);
    refused(&rt, Book, b"(class 0 0)\n(rule (term 1))\n", 8, 18, 2);
    refused(&rt, Book, b"(rule (seq (call 1) (term 0)))\n", 8, 11, 1);
    refused(
        &rt,
        Book,
        b"(rule (seq (any) (term 0)))\n(rule (call 2))\n",
        8,
        17,
        1,
    );
    // a rule may be called before its line
    reads(&rt, b"(rule (call 1))\n(rule (any))\n", 0, 2, 2);
    refused(&rt, Book, b"(rule (call 1))\n(rule (call 2))\n", 8, 22, 2);
}

#[test]
fn a_star_that_could_go_round_for_ever(rt: HostRuntime) {
    refused(&rt, Book, b"(rule (star (empty)))\n", 9, 6, 1);
    refused(&rt, Book, b"(rule (star (star (any))))\n", 9, 6, 1);
    refused(&rt, Book, b"(rule (star (not (any))))\n", 9, 6, 1);
    refused(&rt, Book, b"(rule (star (alt (any) (empty))))\n", 9, 6, 1);
    refused(
        &rt,
        Book,
        b"(rule (any))\n(rule (not (star (empty))))\n",
        9,
        24,
        2,
    );
    // through a rule, before and after its line
    refused(
        &rt,
        Book,
        b"(rule (star (call 1)))\n(rule (empty))\n",
        9,
        6,
        1,
    );
    refused(
        &rt,
        Book,
        b"(rule (empty))\n(rule (star (call 0)))\n",
        9,
        21,
        2,
    );
    // the earliest of two
    refused(
        &rt,
        Book,
        b"(rule (alt (star (empty)) (star (empty))))\n",
        9,
        11,
        1,
    );
}

#[test]
fn a_star_that_reads_each_time(rt: HostRuntime) {
    reads(&rt, b"(rule (star (any)))\n", 0, 1, 2);
    reads(&rt, b"(rule (star (seq (empty) (any))))\n", 0, 1, 4);
    reads(&rt, b"(rule (star (seq (any) (empty))))\n", 0, 1, 4);
    refused(&rt, Book, b"(rule (star (seq (empty) (empty))))\n", 9, 6, 1);
}

#[test]
fn a_rule_that_calls_itself(rt: HostRuntime) {
    reads(&rt, b"(rule (call 0))\n", 0, 1, 1);
    // such a rule is not nullable
    reads(&rt, b"(rule (call 0))\n(rule (star (call 0)))\n", 0, 2, 3);
    reads(&rt, b"(rule (star (call 1)))\n(rule (call 1))\n", 0, 2, 3);
    // this one is, but by its second operand
    refused(
        &rt,
        Book,
        b"(rule (alt (call 0) (star (call 0))))\n",
        9,
        20,
        1,
    );
}

#[test]
fn which_fault_is_told(rt: HostRuntime) {
    // while it is read; then a number that is not there; then a star
    refused(
        &rt,
        Expressions,
        b"(rule (star (empty)))\n(rule (call 7))",
        4,
        37,
        2,
    );
    refused(
        &rt,
        Book,
        b"(rule (star (empty)))\n(rule (call 7))\n",
        8,
        28,
        2,
    );
    refused(
        &rt,
        Book,
        b"(rule (star (empty)))\n(rule (call 1))\n",
        9,
        6,
        1,
    );
}

fn tells(rt: &impl Abort, fault: BookFault, number: u8, layer: Layer) {
    assert_eq!(rt; fault.number(), number);
    assert_eq!(rt; fault.layer(), layer);
    assert_eq!(rt; fault.spot(), Spot { place: 7, line: 3 });
}

#[test]
fn numbers_layers_and_spots_of_faults(rt: HostRuntime) {
    let spot = Spot { place: 7, line: 3 };
    let stray = ExprFault::InToken(TokenFault::Stray(spot));
    let bad_number = ExprFault::InToken(TokenFault::BadNumber(spot));
    tells(&rt, BookFault::TooLong(spot), 1, Book);
    tells(&rt, BookFault::InExpr(stray), 2, Tokens);
    tells(&rt, BookFault::InExpr(bad_number), 3, Tokens);
    tells(
        &rt,
        BookFault::InExpr(ExprFault::Unwanted(spot)),
        4,
        Expressions,
    );
    tells(&rt, BookFault::TooMany(spot), 5, Book);
    tells(
        &rt,
        BookFault::InExpr(ExprFault::TooDeep(spot)),
        6,
        Expressions,
    );
    tells(&rt, BookFault::Unlawful(spot), 7, Book);
    tells(&rt, BookFault::Missing(spot), 8, Book);
    tells(&rt, BookFault::Loop(spot), 9, Book);
}
