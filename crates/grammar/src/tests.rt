use crate::classes::Classes;
use crate::node::{Node, Operator};
use crate::roots::Roots;
use crate::table::Table;
use kinds::Class;
use std::alloc::AllocError;

const BLANK: Node = Node {
    operator: Operator::Empty,
    end: 0,
    place: 0,
};

fn class(first: u32, second: u32) -> Class {
    Class { first, second }
}

#[test]
fn a_node_past_the_end_is_blank(rt: HostRuntime) {
    let mut table = Table::new();
    assert_eq!(rt; table.count(), 0);
    assert_eq!(rt; table.node(0), BLANK);
    assert_eq!(rt; table.reserve(), Some(0));
    table.fill(0, Operator::Any, 6);
    assert_eq!(rt; table.count(), 1);
    assert_eq!(rt; table.node(1), BLANK);
    assert_eq!(rt; table.node(u16::MAX), BLANK);
}

#[test]
fn an_expression_is_filled_after_its_parts(rt: HostRuntime) {
    // (rule (not (term 7)))
    let mut table = Table::new();
    assert_eq!(rt; table.reserve(), Some(0));
    assert_eq!(rt; table.reserve(), Some(1));
    assert_eq!(rt; table.node(1), BLANK);
    table.fill(1, Operator::Term(7), 11);
    assert_eq!(rt; table.node(0), BLANK);
    table.fill(0, Operator::Not, 6);
    assert_eq!(rt;
        table.node(0),
        Node {
            operator: Operator::Not,
            end: 2,
            place: 6,
        }
    );
    assert_eq!(rt;
        table.node(1),
        Node {
            operator: Operator::Term(7),
            end: 2,
            place: 11,
        }
    );
}

#[test]
fn a_number_that_is_not_there_is_not_filled(rt: HostRuntime) {
    let mut table = Table::new();
    table.fill(0, Operator::Any, 6);
    assert_eq!(rt; table.count(), 0);
    assert_eq!(rt; table.node(0), BLANK);
    assert_eq!(rt; table.reserve(), Some(0));
    table.fill(1, Operator::Any, 6);
    table.fill(u16::MAX, Operator::Any, 6);
    assert_eq!(rt; table.count(), 1);
    assert_eq!(rt; table.node(0), BLANK);
    // room that is made later is blank
    assert_eq!(rt; table.reserve(), Some(1));
    assert_eq!(rt; table.node(1), BLANK);
}

#[test]
fn a_table_has_room_for_512(rt: HostRuntime) {
    let mut table = Table::new();
    for i in 0..512u16 {
        assert_eq!(rt; table.reserve(), Some(i));
    }
    assert_eq!(rt; table.count(), 512);
    assert_eq!(rt; table.reserve(), None);
    assert_eq!(rt; table.count(), 512);
    table.fill(511, Operator::Star, 32_767);
    assert_eq!(rt;
        table.node(511),
        Node {
            operator: Operator::Star,
            end: 512,
            place: 32_767,
        }
    );
    assert_eq!(rt; table.node(510), BLANK);
    table.fill(512, Operator::Star, 1);
    assert_eq!(rt; table.node(512), BLANK);
}

#[test]
fn the_nodes_are_those_that_count(rt: HostRuntime) {
    let mut table = Table::new();
    assert!(rt; table.nodes().is_empty());
    assert_eq!(rt; table.reserve(), Some(0));
    assert_eq!(rt; table.reserve(), Some(1));
    table.fill(1, Operator::Any, 11);
    let filled = Node {
        operator: Operator::Any,
        end: 2,
        place: 11,
    };
    assert_eq!(rt; table.nodes(), [BLANK, filled].as_slice());
}

#[test]
fn there_is_room_for_64_classes(rt: HostRuntime) {
    let mut classes = Classes::new();
    assert_eq!(rt; classes.count(), 0);
    assert_eq!(rt; classes.class(0), class(0, 0));
    assert_eq!(rt; classes.get(0), None);
    for i in 0..64u8 {
        assert_eq!(rt; classes.count(), usize::from(i));
        classes.push(class(u32::from(i), 255));
        assert_eq!(rt; classes.class(i + 1), class(0, 0));
        assert_eq!(rt; classes.get(usize::from(i) + 1), None);
    }
    assert_eq!(rt; classes.count(), 64);
    classes.push(class(9, 9));
    assert_eq!(rt; classes.count(), 64);
    assert_eq!(rt; classes.class(0), class(0, 255));
    assert_eq!(rt; classes.class(63), class(63, 255));
    assert_eq!(rt; classes.class(64), class(0, 0));
    assert_eq!(rt; classes.class(u8::MAX), class(0, 0));
    assert_eq!(rt; classes.get(63), Some(class(63, 255)));
    assert_eq!(rt; classes.get(64), None);
    assert_eq!(rt; classes.get(usize::MAX), None);
}

#[test]
fn there_is_room_for_32_rules(rt: HostRuntime) {
    let mut roots = Roots::new();
    assert_eq!(rt; roots.count(), 0);
    assert_eq!(rt; roots.root(0), 0);
    assert_eq!(rt; roots.get(0), None);
    for i in 0..32u8 {
        assert_eq!(rt; roots.count(), usize::from(i));
        roots.push(511 - u16::from(i));
        assert_eq!(rt; roots.root(i + 1), 0);
        assert_eq!(rt; roots.get(usize::from(i) + 1), None);
    }
    assert_eq!(rt; roots.count(), 32);
    roots.push(9);
    assert_eq!(rt; roots.count(), 32);
    assert_eq!(rt; roots.root(0), 511);
    assert_eq!(rt; roots.root(31), 480);
    assert_eq!(rt; roots.root(32), 0);
    assert_eq!(rt; roots.root(u8::MAX), 0);
    assert_eq!(rt; roots.get(31), Some(480));
    assert_eq!(rt; roots.get(32), None);
    assert_eq!(rt; roots.get(usize::MAX), None);
}

#[test]
fn the_items_are_in_the_order_in_which_they_were_added(rt: HostRuntime) -> Result<(), AllocError> {
    let mut roots = Roots::new();
    assert!(rt; roots.as_slice().is_empty());
    roots.push(7);
    roots.push(3);
    assert_eq!(rt; roots.as_slice(), [7, 3].as_slice());
    // a copy goes its own way, and so does a clone
    let copy = roots;
    let clone = roots.clone()?;
    roots.push(5);
    assert_eq!(rt; roots.as_slice(), [7, 3, 5].as_slice());
    assert_eq!(rt; copy.as_slice(), [7, 3].as_slice());
    assert_eq!(rt; clone.as_slice(), [7, 3].as_slice());
    Ok(())
}
