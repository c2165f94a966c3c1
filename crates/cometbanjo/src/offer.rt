// What a packet would be promised if it came to the link in the caller's arrays now (R351): its arrival is made on copies of those arrays
// that an arrival changes, and what it answers is offered. Serves demands 1 and 3.
ghost use Rattle.answers.specs.Burst.{link_in};
ghost use Rattle.offered.specs.Offer.{Offers};

use answers::call;
use offered::Offered;
use state::Packet;
use units::Bytes;

pub(crate) fn if_accepted(
    shape: &[u64; 195],
    stand: &[u64; 4],
    balance: &[u64; 64],
    residual: &[u64; 64],
    start: &[u8; 64],
    held: &[u8; 64],
    lengths: &[u16; 2048],
    tags: &[u32; 2048],
    marks: &[u64; 2048],
    packets: &[u64; 64],
    bytes: &[u64; 64],
    class: usize,
    length: u16,
) -> Offered
    ensures { Offers (link_in shape.now stand.now balance.now residual.now
        start.now held.now lengths.now tags.now marks.now packets.now
        bytes.now) class length result }
{
    let mut held = *held;
    let mut lengths = *lengths;
    let mut tags = *tags;
    let mut marks = *marks;
    let mut packets = *packets;
    let mut waiting = *bytes;
    let answer = call::arrive(
        shape,
        stand,
        balance,
        residual,
        start,
        &mut held,
        &mut lengths,
        &mut tags,
        &mut marks,
        &mut packets,
        &mut waiting,
        class,
        Packet { length, tag: 0 },
    );
    let verdict = answer.verdict;
    let bytes = answer.bytes;
    if let Ok(()) = verdict {
        let tree = shape::tree_of(shape);
        let promise = promised::longest_wait(tree, class, bytes);
        let wait = promise.bytes;
        return Offered {
            verdict,
            bytes,
            wait,
        };
    }
    Offered {
        verdict,
        bytes,
        wait: Bytes(0),
    }
}
