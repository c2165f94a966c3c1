// The box's loop on standard input: `lent_parts::part` keeps one link record and lends it to both calls (R164), and what each part laid is
// printed. It reads what `linkrun` reads and prints the same lines (R185 to R195). Serves demands 1 and 2. `box_runs` runs it in the gate.
#![tactic(auto)]

use std::io;

// The bytes of a part at most.
const TEXT: usize = 65_536;

// A whole run of an input: its first line, and then part after part into one buffer.
fn whole(rt: &impl Print, input: &[u8]) -> io::Result<()> {
    let step = run::first(input);
    shown::print(rt, step.line)?;
    let mut text = [0u8; TEXT];
    by_parts::each_part(step, input, &mut text, lent_parts::part, |laid| {
        shown::word(rt, laid)
    })
}

// A whole run of the next bytes of standard input, as many as there is room for.
pub fn run_next(rt: &(impl Input + Print), room: &mut [u8]) -> io::Result<()> {
    shown::with_input(rt, room, |input| whole(rt, input))
}

// A whole run of standard input.
pub fn run(rt: &(impl Input + Print)) -> io::Result<()> {
    let mut room = [0u8; checks::MOST_INPUT + 1];
    run_next(rt, &mut room)
}
