//! A tour of the library, in three parts: a world stepped by hand, two threads that share a register, and four threads
//! that add to counters.
#![tactic(auto)]

mod counting;
mod sharing;
mod stepping;

fn main(rt: HostRuntime) -> anyhow::Result<()> {
    stepping::run(&rt)?;
    sharing::run(rt)?;
    counting::run(rt)
}
