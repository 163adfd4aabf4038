use crate::copy::copy_symbols;
use crate::either::Either;
use crate::join::Join;
use crate::packed::Packed;
use crate::plain::Plain;
use crate::text::Text;
use crate::window::Window;

#[test]
fn plain_takes_65535_symbols(rt: HostRuntime) {
    let symbols = [7u8; 65_536];
    let whole = Plain::new(&symbols[0..65_535]);
    assert_eq!(rt; whole.len(), 65_535);
    assert!(rt; !whole.is_cut());
    assert_eq!(rt; whole.symbol(65_534), Some(7));
    assert_eq!(rt; whole.symbol(65_535), None);
    let longer = Plain::new(&symbols);
    assert_eq!(rt; longer.len(), 65_535);
    assert!(rt; longer.is_cut());
    assert_eq!(rt; longer.symbol(65_534), Some(7));
    assert_eq!(rt; longer.symbol(65_535), None);
}

#[test]
fn packed_takes_32767_bytes(rt: HostRuntime) {
    let bytes = [0x5au8; 32_768];
    let whole = Packed::new(&bytes[0..32_767]);
    assert_eq!(rt; whole.len(), 65_534);
    assert!(rt; !whole.is_cut());
    assert_eq!(rt; whole.symbol(65_533), Some(b'A'));
    assert_eq!(rt; whole.symbol(65_534), None);
    let longer = Packed::new(&bytes);
    assert_eq!(rt; longer.len(), 65_534);
    assert!(rt; longer.is_cut());
    assert_eq!(rt; longer.symbol(65_534), None);
}

#[test]
fn packed_gives_the_high_half_first(rt: HostRuntime) {
    let mut digits = [0u8; 9];
    assert_eq!(rt;
        copy_symbols(&Packed::new(&[0x09, 0xaf, 0x90, 0xfa]), &mut digits),
        8
    );
    assert_eq!(rt; digits, *b"09AF90FA\0");
    assert_eq!(rt; Packed::new(&[]).len(), 0);
    assert_eq!(rt; Packed::new(&[]).symbol(0), None);
}

#[test]
fn window_at_its_edges(rt: HostRuntime) {
    let below = Plain::new(b"abcde");
    for (skip, size, len) in [(0, 0, 0), (0, 65_535, 5), (65_535, 65_535, 0), (1, 3, 3)] {
        assert_eq!(rt; Window { below, skip, size }.len(), len, "{skip}, {size}");
    }
    for (skip, size, place, symbol) in [
        (65_535, 65_535, 0, None),
        (1, 3, 2, Some(b'd')),
        (1, 3, 3, None),
        (4, 3, 1, None),
        (1, 3, usize::MAX, None),
    ] {
        assert_eq!(rt;
            Window { below, skip, size }.symbol(place),
            symbol,
            "{skip}, {size}, {place}"
        );
    }
}

#[test]
fn window_is_cut_as_the_text_below(rt: HostRuntime) {
    let symbols = [0u8; 65_536];
    let below = Plain::new(&symbols);
    let cut = Window {
        below,
        skip: 0,
        size: 1,
    };
    assert!(rt; cut.is_cut());
    let below = Plain::new(b"abc");
    let whole = Window {
        below,
        skip: 0,
        size: 1,
    };
    assert!(rt; !whole.is_cut());
}

#[test]
fn join_takes_65535_symbols(rt: HostRuntime) {
    let symbols = [1u8; 65_535];
    let full = Plain::new(&symbols);
    let exact = Join {
        front: full,
        back: Plain::new(b""),
    };
    assert_eq!(rt; exact.len(), 65_535);
    assert!(rt; !exact.is_cut());
    let over = Join {
        front: full,
        back: Plain::new(b"z"),
    };
    assert_eq!(rt; over.len(), 65_535);
    assert!(rt; over.is_cut());
    assert_eq!(rt; over.symbol(65_534), Some(1));
    assert_eq!(rt; over.symbol(65_535), None);
}

#[test]
fn join_is_cut_if_its_front_is(rt: HostRuntime) {
    let bytes = [0u8; 32_768];
    let cut = Packed::new(&bytes);
    let join = Join {
        front: Window {
            below: cut,
            skip: 0,
            size: 1,
        },
        back: Plain::new(b"a"),
    };
    assert_eq!(rt; join.len(), 2);
    assert!(rt; join.is_cut());
}

#[test]
fn join_is_cut_if_its_back_is(rt: HostRuntime) {
    let bytes = [0u8; 32_768];
    let cut = Packed::new(&bytes);
    let join = Join {
        front: Plain::new(b"a"),
        back: Window {
            below: cut,
            skip: 0,
            size: 1,
        },
    };
    assert_eq!(rt; join.len(), 2);
    assert!(rt; join.is_cut());
}

#[test]
fn windows_and_joins_pile_up(rt: HostRuntime) {
    let greeting = Join {
        front: Plain::new(b"hello"),
        back: Plain::new(b" world"),
    };
    let digits = Join {
        front: Packed::new(&[0x12, 0x34]),
        back: Packed::new(&[0xab]),
    };
    let pile = Join {
        front: Window {
            below: greeting,
            skip: 3,
            size: 4,
        },
        back: Window {
            below: digits,
            skip: 2,
            size: 9,
        },
    };
    let mut out = [b'.'; 10];
    assert_eq!(rt; copy_symbols(&pile, &mut out), 8);
    assert_eq!(rt; out, *b"lo w34AB..");
}

#[test]
fn either_mixes_texts(rt: HostRuntime) {
    let texts = [
        Either::First(Plain::new(b"n+n")),
        Either::Second(Packed::new(&[0x42])),
    ];
    let mut out = [0u8; 2];
    assert_eq!(rt; copy_symbols(&texts[0], &mut out), 2);
    assert_eq!(rt; out, *b"n+");
    assert_eq!(rt; copy_symbols(&texts[1], &mut out), 2);
    assert_eq!(rt; out, *b"42");
    assert_eq!(rt; texts[0].len(), 3);
    assert!(rt; !texts[1].is_cut());
}
