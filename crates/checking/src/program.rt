use crate::asking::{MOST_INPUT, check};
use std::io::{Read, Write};

// One byte more than is looked at, so that a longer input is seen to be too long.
const MOST_READ: u64 = MOST_INPUT as u64 + 1;

/// The program: checks the book on standard input, and prints what is said of it.
pub fn run(rt: &HostRuntime) -> anyhow::Result<()> {
    let mut input = Vec::new(rt.alloc());
    rt.stdin().take(MOST_READ).read_to_end(&mut input)?;
    let text = check(rt.alloc(), input.as_slice())?;
    rt.stdout().write_all(text.as_slice())?;
    Ok(())
}
