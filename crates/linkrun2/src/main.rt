// A whole run of the second engine: a plan and its events from standard input, one line for each thing, the same lines as `linkrun`
// (`same_lines`, published_run/proofs/Lines); run and compared with the listing.
// It reads, calls and writes, event by event. Serves demands 1 and 2.
#![tactic(auto)]

use std::io;

// Prints the lines of a whole run: the first one, then those of the events.
fn whole(rt: &impl Print, input: &[u8]) -> io::Result<()> {
    let mut step = published_run::first(input);
    shown::print(rt, step.line)?;
    while step.more {
        step = published_run::next(step.link, input, step.place);
        shown::print(rt, step.line)?;
    }
    Ok(())
}

fn main(rt: HostRuntime) -> io::Result<()> {
    let mut room = [0u8; checks::MOST_INPUT + 1];
    shown::with_input(&rt, &mut room, |input| whole(&rt, input))
}
