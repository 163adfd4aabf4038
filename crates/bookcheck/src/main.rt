//! Checks the book on standard input, for symbols that are bytes.
//!
//! An accepted book is printed again, below a line with its counts. Of a refused one the fault is
//! printed, with the line and the place where it is.

#![tactic(auto)]

fn main(rt: HostRuntime) -> anyhow::Result<()> {
    checking::run(&rt)
}
