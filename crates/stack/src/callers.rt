//! Three callers of a stack, proved from its contracts alone: they show that these say enough.

ghost use Rattle.std.specs.Prelude.{◌≡◌, ◌≤◌, [], ◌∷◌, ◌++◌, length, Some, None, slice_set};
ghost use Rattle.stack.specs.Held.{held, last, front, SameLoan};

use crate::stack::Stack;

// Over an array of its own: what was pushed comes off in reverse, and then nothing.
fn in_reverse(first: u16, second: u16) -> [Option<u16>; 3]
    ensures { result ≡ (Some second ∷ (Some first ∷ (None ∷ []))) }
{
    let mut records = [0; 64];
    let mut stack = Stack::new(&mut records);
    let _ = stack.push(first);
    let _ = stack.push(second);
    let top = stack.pop();
    let below = stack.pop();
    [top, below, stack.pop()]
}

// Over a slice that it is lent and lends on: the lender knows the whole slice afterwards.
fn push_and_pop<R: Copy>(records: &mut [R], first: R, second: R) -> Option<R>
    requires { 2 ≤ length records.old }
    ensures top { result ≡ Some second }
    ensures slice { records.new ≡ slice_set (slice_set records.old 0 first) 1 second }
{
    let mut stack = Stack::new(records);
    let _ = stack.push(first);
    let _ = stack.push(second);
    stack.pop()
}

// On a stack that another function made.
fn replace_top<R: Copy>(stack: &mut Stack<'_, R>, other: R) -> Option<R>
    requires { 1 ≤ length (held stack.old) }
    ensures top { result ≡ last (held stack.old) }
    ensures held { held stack.new ≡ front (held stack.old) ++ (other ∷ []) }
    ensures same { SameLoan stack.old stack.new }
{
    let top = stack.pop();
    let _ = stack.push(other);
    top
}
