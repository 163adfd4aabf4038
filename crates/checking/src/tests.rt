use crate::asking::{MOST_INPUT, check};
use crate::escape::{Escape, Escapes, put_escaped};
use crate::excerpt::Excerpt;
use crate::line::Line;
use crate::pointing::put_pointer;
use std::alloc::Global;
use std::process::Abort;
use std::test::Fail;

const OUTSIDE: &str =
    "the layout of a book does not allow this here; the place is the first word, number or sign that does not fit, or the end\n";

const STRAY: &str =
    "no word, number, bracket, space or line feed begins with this byte; the place is the byte\n";

const LONG: &str =
    "a book has at most 32768 bytes, and this one has more; the place is its start\n";

const LOOP: &str =
    "a star of an expression that can match nothing would go round for ever; the place is the star's opening bracket\n";

// What is said of a book is the first line, the meaning, and the last two lines.
fn says(
    rt: &impl Abort,
    heap: Global,
    book: &[u8],
    head: &str,
    meaning: &str,
    pointer: &str,
) -> Result<(), Fail> {
    let text = check(heap, book)?;
    let expected = format!(in heap; "{head}{meaning}{pointer}")?;
    assert_eq!(rt; text.as_slice(), expected.as_bytes());
    Ok(())
}

fn points(
    rt: &impl Abort,
    heap: Global,
    bytes: &[u8],
    place: usize,
    lines: &str,
) -> Result<(), Fail> {
    let mut text = Vec::new(heap);
    put_pointer(&mut text, bytes, place)?;
    assert_eq!(rt; text.as_slice(), lines.as_bytes());
    Ok(())
}

#[test]
fn an_accepted_book_is_shown_below_its_counts(rt: HostRuntime) -> Result<(), Fail> {
    says(
        &rt,
        rt.alloc(),
        b"(class 48 57)\n(rule (star (term 0)))\n",
        "book accepted: classes 1, rules 1, expressions 2\n",
        "",
        "(class 48 57)\n(rule (star (term 0)))\n",
    )
}

#[test]
fn a_fault_is_shown_on_its_line(rt: HostRuntime) -> Result<(), Fail> {
    let heap = rt.alloc();
    says(&rt, heap, b"", "book 4 line 1 place 0\n", OUTSIDE, "\n^\n")?;
    says(
        &rt,
        heap,
        b"(rule\t(any))\n(rule (any))\n",
        "book 2 line 1 place 5\n",
        STRAY,
        "(rule\\x09(any))\n     ^\n",
    )?;
    says(
        &rt,
        heap,
        b"(rule (any))\n(rule (star (empty)))\n",
        "book 9 line 2 place 19\n",
        LOOP,
        "(rule (star (empty)))\n      ^\n",
    )
}

#[test]
fn the_end_of_a_book_is_past_its_last_line(rt: HostRuntime) -> Result<(), Fail> {
    let heap = rt.alloc();
    says(
        &rt,
        heap,
        b"(rule (any))",
        "book 4 line 1 place 12\n",
        OUTSIDE,
        "(rule (any))\n            ^\n",
    )?;
    says(
        &rt,
        heap,
        b"(class 0 9)\n",
        "book 4 line 2 place 12\n",
        OUTSIDE,
        "\n^\n",
    )
}

#[test]
fn the_caret_counts_what_is_shown(rt: HostRuntime) -> Result<(), Fail> {
    let heap = rt.alloc();
    points(&rt, heap, b"a\0\\b", 3, "a\\x00\\\\b\n       ^\n")?;
    points(&rt, heap, b"\xffb\n", 1, "\\xffb\n    ^\n")?;
    points(&rt, heap, b"\x7f~", 9, "\\x7f~\n     ^\n")?;
    points(&rt, heap, b"one\ntwo\nthree", 7, "two\n   ^\n")
}

#[test]
fn bytes_are_shown_one_after_another(rt: HostRuntime) -> Result<(), Fail> {
    let heap = rt.alloc();
    let one = Escape(b'\t').to_string(heap)?;
    assert_eq!(rt; one.as_str(), "\\x09");
    let all = Escapes(b" ~\x1f\x7f\xf0\\").to_string(heap)?;
    assert_eq!(rt; all.as_str(), " ~\\x1f\\x7f\\xf0\\\\");
    let mut text = vec![in heap; b'>']?;
    put_escaped(&mut text, b"a\n")?;
    assert_eq!(rt; text.as_slice(), b">a\\x0a".as_slice());
    Ok(())
}

#[test]
fn a_long_line_is_cut(rt: HostRuntime) -> Result<(), Fail> {
    let heap = rt.alloc();
    let line = [b'a'; 61];
    points(
        &rt,
        heap,
        &line,
        40,
        "aaaaaaaaaaaaaaaaaaaaaaaaaaaaaaaaaaaaaaaaaaaaaaaaaaaaaaaaaaaa...\n                                        ^\n",
    )?;
    points(
        &rt,
        heap,
        &line,
        41,
        "...aaaaaaaaaaaaaaaaaaaaaaaaaaaaaaaaaaaaaaaaaaaaaaaaaaaaaaaaaaaa\n                                           ^\n",
    )
}

#[test]
fn a_byte_is_shown_in_one_two_or_four_bytes(rt: HostRuntime) {
    assert_eq!(rt; Escape::new(b'~').bytes().as_slice(), b"~".as_slice());
    assert_eq!(rt; Escape::new(b'\\').bytes().as_slice(), b"\\\\".as_slice());
    assert_eq!(rt; Escape::new(0x7f).bytes().as_slice(), b"\\x7f".as_slice());
    assert_eq!(rt; Escape::new(0x1b).bytes().as_slice(), b"\\x1b".as_slice());
}

#[test]
fn an_excerpt_says_where_the_line_goes_on(rt: HostRuntime) {
    let line = Line { start: 5, end: 66 };
    let first = Excerpt::around(line, 45);
    assert_eq!(rt; (first.from, first.to), (5, 65));
    assert!(rt; !first.is_cut_before());
    assert!(rt; first.is_cut_after());
    let next = Excerpt::around(line, 46);
    assert_eq!(rt; (next.from, next.to), (6, 66));
    assert!(rt; next.is_cut_before());
    assert!(rt; !next.is_cut_after());
}

#[test]
fn too_many_bytes_are_told(rt: HostRuntime) -> Result<(), Fail> {
    let heap = rt.alloc();
    let mut book = vec![in heap; b'a'; 32_769]?;
    says(
        &rt,
        heap,
        book.as_slice(),
        "book 1 line 1 place 0\n",
        LONG,
        "aaaaaaaaaaaaaaaaaaaa...\n^\n",
    )?;
    book.resize(MOST_INPUT, b'a')?;
    says(
        &rt,
        heap,
        book.as_slice(),
        "book 1 line 1 place 0\n",
        LONG,
        "aaaaaaaaaaaaaaaaaaaa...\n^\n",
    )?;
    book.push(b'a')?;
    says(&rt, heap, book.as_slice(), "input too long\n", "", "")
}
