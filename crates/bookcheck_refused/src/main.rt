//! The same program as `bookcheck`: the gate runs a program once, so this one is run on a book that is
//! refused.

#![tactic(auto)]

fn main(rt: HostRuntime) -> anyhow::Result<()> {
    checking::run(&rt)
}
