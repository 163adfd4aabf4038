use crate::field::Field;

#[test]
fn two_numbers_of_16_bits_are_a_field(rt: HostRuntime) {
    assert_eq!(rt;
        Field::parse("0", "65535"),
        Some(Field {
            skip: 0,
            size: 65_535,
        })
    );
    assert_eq!(rt; Field::parse("+6", "007"), Some(Field { skip: 6, size: 7 }));
}

#[test]
fn other_words_are_none(rt: HostRuntime) {
    assert_eq!(rt; Field::parse("65536", "1"), None);
    assert_eq!(rt; Field::parse("1", "65536"), None);
    assert_eq!(rt; Field::parse("", "1"), None);
    assert_eq!(rt; Field::parse("1", "-1"), None);
    assert_eq!(rt; Field::parse("1", "ten"), None);
}
