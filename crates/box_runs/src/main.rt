// The box's loop on the listing, 68 bytes, and then on one recorded run; run and compared in the gate.
#![tactic(auto)]

use std::io;

fn main(rt: HostRuntime) -> io::Result<()> {
    let mut listing = [0u8; 68];
    box_loop::run_next(&rt, &mut listing)?;
    box_loop::run(&rt)
}
