ghost use Rattle.std.specs.Prelude.{◌≡◌};

use crate::loops::first_loop;
use crate::missing::first_missing;
use crate::nullable::nullable_rules;
use grammar::{Book, Classes, Operator, Roots, Table};

// (rule (star (call 1)))
// (rule (call 2))
// (rule (empty))
fn through_two_rules() -> Book
    ensures { result.length ≡ 54 }
{
    let mut table = Table::new();
    table.reserve();
    table.reserve();
    table.fill(1, Operator::Call(1), 12);
    table.fill(0, Operator::Star, 6);
    table.reserve();
    table.fill(2, Operator::Call(2), 29);
    table.reserve();
    table.fill(3, Operator::Empty, 45);
    let mut roots = Roots::new();
    roots.push(0);
    roots.push(2);
    roots.push(3);
    Book {
        classes: Classes::new(),
        table,
        roots,
        length: 54,
    }
}

// (rule (seq (call 0) (star (call 0))))
// (rule (star (alt (term 7) (empty))))
// (rule (star (call 1)))
// (rule (call 4))
fn two_of_each() -> Book
    ensures { result.length ≡ 114 }
{
    let mut table = Table::new();
    table.reserve();
    table.reserve();
    table.fill(1, Operator::Call(0), 11);
    table.reserve();
    table.reserve();
    table.fill(3, Operator::Call(0), 26);
    table.fill(2, Operator::Star, 20);
    table.fill(0, Operator::Seq, 6);
    table.reserve();
    table.reserve();
    table.reserve();
    table.fill(6, Operator::Term(7), 55);
    table.reserve();
    table.fill(7, Operator::Empty, 64);
    table.fill(5, Operator::Alt, 50);
    table.fill(4, Operator::Star, 44);
    table.reserve();
    table.reserve();
    table.fill(9, Operator::Call(1), 87);
    table.fill(8, Operator::Star, 81);
    table.reserve();
    table.fill(10, Operator::Call(4), 104);
    let mut roots = Roots::new();
    roots.push(0);
    roots.push(4);
    roots.push(8);
    roots.push(10);
    Book {
        classes: Classes::new(),
        table,
        roots,
        length: 114,
    }
}

// (rule (star (any)))
fn in_order() -> Book
    ensures { result.length ≡ 20 }
{
    let mut table = Table::new();
    table.reserve();
    table.reserve();
    table.fill(1, Operator::Any, 12);
    table.fill(0, Operator::Star, 6);
    let mut roots = Roots::new();
    roots.push(0);
    Book {
        classes: Classes::new(),
        table,
        roots,
        length: 20,
    }
}

// Whether exactly these rules are nullable, and no number past them is marked.
fn nullable(book: &Book, rules: &[bool]) -> bool {
    let marks = nullable_rules(book);
    marks.starts_with(rules) && marks.iter().skip(rules.len()).all(|mark| !*mark)
}

#[test]
fn a_star_of_a_call_that_is_nullable_through_two_rules(rt: HostRuntime) {
    let book = through_two_rules();
    assert_eq!(rt; first_missing(&book), None);
    assert_eq!(rt; first_loop(&book), Some(6));
    assert!(rt; nullable(&book, &[true, true, true]));
}

#[test]
fn the_earliest_of_two(rt: HostRuntime) {
    let book = two_of_each();
    assert_eq!(rt; first_missing(&book), Some(55));
    assert_eq!(rt; first_loop(&book), Some(44));
}

#[test]
fn a_rule_that_only_calls_itself_is_not_nullable(rt: HostRuntime) {
    assert!(rt; nullable(&two_of_each(), &[false, true, true, false]));
}

#[test]
fn none_of_either(rt: HostRuntime) {
    let book = in_order();
    assert_eq!(rt; first_missing(&book), None);
    assert_eq!(rt; first_loop(&book), None);
    assert!(rt; nullable(&book, &[true]));
}
