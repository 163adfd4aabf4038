use crate::stack::Stack;

#[test]
fn push_until_full(rt: HostRuntime) {
    let mut records = [0u8; 3];
    let mut stack = Stack::new(&mut records);
    assert!(rt; stack.is_empty());
    assert_eq!(rt; stack.push(5), Ok(()));
    assert!(rt; !stack.is_empty());
    assert_eq!(rt; stack.push(6), Ok(()));
    assert_eq!(rt; stack.push(7), Ok(()));
    assert_eq!(rt; stack.len(), 3);
    assert_eq!(rt; stack.top(), Some(7));
    assert_eq!(rt; stack.push(8), Err(8));
    assert_eq!(rt; stack.len(), 3);
    assert_eq!(rt; stack.top(), Some(7));
    assert_eq!(rt; records, [5, 6, 7]);
}

#[test]
fn pop_in_reverse_until_empty(rt: HostRuntime) {
    let mut records = [0u8; 4];
    let mut stack = Stack::new(&mut records);
    assert_eq!(rt; stack.push(5), Ok(()));
    assert_eq!(rt; stack.push(6), Ok(()));
    assert_eq!(rt; stack.push(7), Ok(()));
    assert_eq!(rt; stack.pop(), Some(7));
    assert_eq!(rt; stack.pop(), Some(6));
    assert_eq!(rt; stack.len(), 1);
    assert_eq!(rt; stack.pop(), Some(5));
    assert!(rt; stack.is_empty());
    assert_eq!(rt; stack.top(), None);
    assert_eq!(rt; stack.pop(), None);
    assert_eq!(rt; stack.depth, 0);
}

#[test]
fn the_slice_after_use(rt: HostRuntime) {
    let mut records = [9u8; 5];
    let mut stack = Stack::new(&mut records[1..4]);
    assert_eq!(rt; stack.push(1), Ok(()));
    assert_eq!(rt; stack.push(2), Ok(()));
    assert_eq!(rt; stack.pop(), Some(2));
    assert_eq!(rt; records, [9, 1, 2, 9, 9]);
}

#[test]
fn a_push_after_a_pop_takes_its_place(rt: HostRuntime) {
    let mut records = [9u8; 2];
    let mut stack = Stack::new(&mut records);
    assert_eq!(rt; stack.push(1), Ok(()));
    assert_eq!(rt; stack.pop(), Some(1));
    assert_eq!(rt; stack.push(2), Ok(()));
    assert_eq!(rt; stack.top(), Some(2));
    assert_eq!(rt; records, [2, 9]);
}

#[test]
fn an_empty_slice_has_no_room(rt: HostRuntime) {
    let mut records = [0u8; 0];
    let mut stack = Stack::new(&mut records);
    assert_eq!(rt; stack.push(1), Err(1));
    assert_eq!(rt; stack.top(), None);
    assert_eq!(rt; stack.pop(), None);
    assert!(rt; stack.is_empty());
}

#[test]
fn a_depth_past_the_slice_holds_the_whole_slice(rt: HostRuntime) {
    let mut records = [3u8, 4];
    let mut stack = Stack {
        records: &mut records,
        depth: 7,
    };
    assert_eq!(rt; stack.len(), 2);
    assert_eq!(rt; stack.push(5), Err(5));
    assert_eq!(rt; stack.pop(), Some(4));
    assert_eq!(rt; stack.depth, 1);
    assert_eq!(rt; stack.pop(), Some(3));
    assert_eq!(rt; stack.pop(), None);
}
