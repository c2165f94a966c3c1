// Number 10 in the gate: the first line of a run on 65,536 bytes, the longest input that is taken, and then of one on 65,537 (both tree
// P, and zeros after it).
#![tactic(auto)]

use std::io;

// The first line of a run on the next bytes of standard input, as many as there is room for.
fn begins(rt: &(impl Input + Print), room: &mut [u8]) -> io::Result<()> {
    let step = shown::with_input(rt, room, |input| Ok(run::first(input)))?;
    shown::print(rt, step.line)?;
    Ok(())
}

fn main(rt: HostRuntime) -> io::Result<()> {
    let mut kept = [0u8; checks::MOST_INPUT];
    begins(&rt, &mut kept)?;
    let mut passed = [0u8; checks::MOST_INPUT + 1];
    begins(&rt, &mut passed)
}
