// The library's burst for a box in C or Rust (R349): many events in one call, on a link that lies in the caller's arrays. It is exported by
// itself, so that the compiler sees one caller of the step; `bin/native` joins it to the archive of `cometbanjo`. It asks nothing of its
// caller. Serves demands 1 and 2.
#![tactic(auto)]

ghost use Rattle.std.specs.Prelude.{◌≡◌};
ghost use Rattle.answers.specs.Burst.{link_in};
ghost use Rattle.bursts.specs.Bursting.{burst_said, CallBursts};

use answers::BurstEnd;

// The end of a burst as numbers: the refusal's number, the place that it came to, and how many calls it made.
fn burst_said(end: BurstEnd) -> [u64; 3]
    ensures { result ≡ burst_said end }
{
    let verdict = end.verdict;
    [
        checks::number(verdict) as u64,
        end.place as u64,
        end.replies as u64,
    ]
}

// The calls of events, from the first of their bytes on, as many as the buffer has room for rows; the refusal's number.
#[unsafe(no_mangle)]
pub extern "C" fn cb_burst_fields(
    shape: &[u64; 195],
    stand: &mut [u64; 4],
    balance: &mut [u64; 64],
    residual: &mut [u64; 64],
    start: &mut [u8; 64],
    held: &mut [u8; 64],
    lengths: &mut [u16; 2048],
    tags: &mut [u32; 2048],
    marks: &mut [u64; 2048],
    packets: &mut [u64; 64],
    bytes: &mut [u64; 64],
    events: &[u8],
    out: &mut [u64],
    said: &mut [u64; 3],
) -> u64
    ensures { CallBursts (link_in shape.now stand.old balance.old residual.old
        start.old held.old lengths.old tags.old marks.old packets.old bytes.old) events.now out.old result said.new out.new (link_in
        shape.now stand.new balance.new residual.new start.new held.new
        lengths.new tags.new marks.new packets.new bytes.new) }
{
    let end = answers::burst(
        shape, stand, balance, residual, start, held, lengths, tags, marks, packets, bytes, events,
        0, out,
    );
    let numbers = burst_said(end);
    *said = numbers;
    numbers[0]
}
