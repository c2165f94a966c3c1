// An arrival and a send on a link that lies in the caller's arrays: any numbers in them, any class, any length and any tag. Each decides
// first whether the link is sound. Entries for callers outside: they ask nothing.
// Serves demands 1 and 2: R345.
ghost use Rattle.calls.specs.Arrival.{Arrives, arrival_leaves};
ghost use Rattle.calls.specs.Send.{Sends, send_leaves};
ghost use Rattle.answers.specs.Burst.{link_in};

use crate::{four_of, stand_in};
use calls::{Arrival, Departure};
use checks::Refusal;
use state::Packet;

// An arrival.
pub fn arrive(
    shape: &[u64; 195],
    stand: &[u64; 4],
    balance: &[u64; 64],
    residual: &[u64; 64],
    start: &[u8; 64],
    held: &mut [u8; 64],
    lengths: &mut [u16; 2048],
    tags: &mut [u32; 2048],
    marks: &mut [u64; 2048],
    packets: &mut [u64; 64],
    bytes: &mut [u64; 64],
    class: usize,
    packet: Packet,
) -> Arrival
    ensures { Arrives (link_in shape.now stand.now balance.now residual.now
        start.now held.old lengths.old tags.old marks.old packets.old
        bytes.old) class packet (arrival_leaves result
        (link_in shape.now stand.now balance.now residual.now start.now
        held.new lengths.new tags.new marks.new packets.new bytes.new)) }
{
    let mut children = [0u64; 64];
    let at = stand_in(stand);
    let sound = sound::is_sound_at(
        shape,
        at.size,
        at.active,
        at.place,
        balance,
        residual,
        start,
        held,
        lengths,
        packets,
        bytes,
        &mut children,
    );
    steps::once::arrive(
        sound, class, packet, shape, &children, start, held, lengths, tags, marks, at.charged,
        packets, bytes,
    )
}

// A send.
pub fn send(
    shape: &[u64; 195],
    stand: &mut [u64; 4],
    balance: &mut [u64; 64],
    residual: &mut [u64; 64],
    start: &mut [u8; 64],
    held: &mut [u8; 64],
    lengths: &[u16; 2048],
    tags: &[u32; 2048],
    marks: &[u64; 2048],
    packets: &mut [u64; 64],
    bytes: &mut [u64; 64],
) -> Departure
    ensures { Sends (link_in shape.now stand.old balance.old residual.old
        start.old held.old lengths.now tags.now marks.now packets.old
        bytes.old) (send_leaves result
        (link_in shape.now stand.new balance.new residual.new start.new
        held.new lengths.now tags.now marks.now packets.new bytes.new)) }
{
    let mut children = [0u64; 64];
    let mut kept = [0u32; 64];
    let from = stand_in(stand);
    if !sound::is_sound_at(
        shape,
        from.size,
        from.active,
        from.place,
        balance,
        residual,
        start,
        held,
        lengths,
        packets,
        bytes,
        &mut children,
    ) {
        return fields::refused(Refusal::NotSound);
    }
    let went = steps::once::send(
        shape, &children, &mut kept, from, balance, residual, start, held, lengths, tags, marks,
        packets, bytes,
    );
    let then = went.stand;
    *stand = four_of(then);
    fields::answered(went)
}
