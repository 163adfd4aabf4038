use crate::bytes::ByteKind;
use crate::class::Class;
use crate::commands::{CommandKind, Header};
use crate::kind::Kind;

fn class(first: u32, second: u32) -> Class {
    Class { first, second }
}

#[test]
fn a_byte_range_is_lawful_in_order_and_up_to_255(rt: HostRuntime) {
    assert!(rt; ByteKind.is_lawful(class(0, 255)));
    assert!(rt; ByteKind.is_lawful(class(97, 97)));
    assert!(rt; !ByteKind.is_lawful(class(98, 97)));
    assert!(rt; !ByteKind.is_lawful(class(0, 256)));
    assert!(rt; !ByteKind.is_lawful(class(u32::MAX, u32::MAX)));
}

#[test]
fn a_byte_range_holds_its_two_ends(rt: HostRuntime) {
    let digits = class(48, 57);
    assert!(rt; !ByteKind.contains(digits, 47));
    assert!(rt; ByteKind.contains(digits, 48));
    assert!(rt; ByteKind.contains(digits, 57));
    assert!(rt; !ByteKind.contains(digits, 58));
}

#[test]
fn an_unlawful_class_holds_nothing(rt: HostRuntime) {
    assert!(rt; !ByteKind.contains(class(0, 256), 7));
    assert!(rt; !ByteKind.contains(class(9, 3), 5));
    // the value has a bit outside the mask; the header has just that value
    assert!(rt; !CommandKind.is_lawful(class(0xf0, 0x0f)));
    assert!(rt; !CommandKind.contains(class(0xf0, 0x0f), Header::new(0, 0, 0, 0x0f)));
}

#[test]
fn a_header_is_its_bytes_with_the_first_highest(rt: HostRuntime) {
    assert_eq!(rt; Header::new(0x00, 0xa4, 0x04, 0x0c).number(), 0x00a4_040c);
    assert_eq!(rt; Header::new(255, 255, 255, 255).number(), u32::MAX);
}

#[test]
fn a_command_class_compares_under_its_mask(rt: HostRuntime) {
    let select = class(0x00ff_0000, 0x00a4_0000);
    assert!(rt; CommandKind.is_lawful(select));
    assert!(rt; CommandKind.contains(select, Header::new(0x80, 0xa4, 0x04, 0x00)));
    assert!(rt; !CommandKind.contains(select, Header::new(0x80, 0xb0, 0x04, 0x00)));
    assert!(rt; CommandKind.contains(class(0, 0), Header::new(1, 2, 3, 4)));
    assert!(rt; !CommandKind.contains(class(u32::MAX, 0), Header::new(0, 0, 0, 1)));
}
