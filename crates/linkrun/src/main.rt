// A whole run: a plan and its events from standard input, one line for each thing (R185 to R195); run and compared with the listing.
// It reads, calls and writes, part by part; the lines are those of `run` and `parts`. Serves demands 1 and 2.
#![tactic(auto)]

use std::io;

// The bytes of a part at most.
const TEXT: usize = 65_536;

// Prints the lines of a whole run: the first one, then those of the events.
fn whole(rt: &impl Print, input: &[u8]) -> io::Result<()> {
    let step = run::first(input);
    shown::print(rt, step.line)?;
    let mut text = [0u8; TEXT];
    by_parts::each_part(step, input, &mut text, parts::part, |laid| {
        shown::word(rt, laid)
    })
}

fn main(rt: HostRuntime) -> io::Result<()> {
    let mut room = [0u8; checks::MOST_INPUT + 1];
    shown::with_input(&rt, &mut room, |input| whole(&rt, input))
}
