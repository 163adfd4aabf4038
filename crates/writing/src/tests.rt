use crate::book::write_book;
use crate::writer::Writer;
use grammar::{Book, Classes, Operator, Roots, Table};
use kinds::Class;

const TEXT: &[u8; 85] =
    b"(class 65 90)\n(rule (seq (term 0) (star (alt (call 1) (any)))))\n(rule (not (empty)))\n";

// The tables of the book above, as a reader lays them.
fn sample() -> Book {
    let mut classes = Classes::new();
    classes.push(Class {
        first: 65,
        second: 90,
    });
    let mut table = Table::new();
    let _ = table.reserve();
    let _ = table.reserve();
    table.fill(1, Operator::Term(0), 25);
    let _ = table.reserve();
    let _ = table.reserve();
    let _ = table.reserve();
    table.fill(4, Operator::Call(1), 45);
    let _ = table.reserve();
    table.fill(5, Operator::Any, 54);
    table.fill(3, Operator::Alt, 40);
    table.fill(2, Operator::Star, 34);
    table.fill(0, Operator::Seq, 20);
    let _ = table.reserve();
    let _ = table.reserve();
    table.fill(7, Operator::Empty, 75);
    table.fill(6, Operator::Not, 70);
    let mut roots = Roots::new();
    roots.push(0);
    roots.push(6);
    Book {
        classes,
        table,
        roots,
        length: 85,
    }
}

#[test]
fn a_book_that_just_fits(rt: HostRuntime) {
    let mut out = [0; 85];
    assert_eq!(rt; write_book(&sample(), &mut out), Some(85));
    assert_eq!(rt; &out, TEXT);
}

#[test]
fn bytes_past_the_book_stay(rt: HostRuntime) {
    let mut out = [7; 90];
    assert_eq!(rt; write_book(&sample(), &mut out), Some(85));
    assert_eq!(rt; &out[0..85], TEXT.as_slice());
    assert_eq!(rt; &out[85..90], [7; 5].as_slice());
}

#[test]
fn one_byte_too_few_is_refused(rt: HostRuntime) {
    let mut out = [7; 84];
    assert_eq!(rt; write_book(&sample(), &mut out), None);
    assert_eq!(rt; out, [7; 84]);
}

#[test]
fn no_room_at_all(rt: HostRuntime) {
    let mut out = [0; 0];
    assert_eq!(rt; write_book(&sample(), &mut out), None);
}

// The digits of a number, past the space that stands before them, and then spaces.
fn digits(number: u32) -> [u8; 12] {
    let mut out = [b' '; 13];
    let mut writer = Writer {
        out: &mut out,
        count: 0,
    };
    writer.put_number(number);
    let mut digits = [0; 12];
    digits.copy_from_slice(&out[1..]);
    digits
}

#[test]
fn numbers_from_0_to_the_greatest(rt: HostRuntime) {
    assert_eq!(rt; &digits(0), b"0           ");
    assert_eq!(rt; &digits(9), b"9           ");
    assert_eq!(rt; &digits(10), b"10          ");
    assert_eq!(rt; &digits(905), b"905         ");
    assert_eq!(rt; &digits(1_000_000), b"1000000     ");
    assert_eq!(rt; &digits(u32::MAX), b"4294967295  ");
}
