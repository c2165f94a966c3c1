// An arrival: its checks in order, and the packet put where it waits and counted. Named for specs/Arrivals.
// Every arrival of the library is this one: by value, lent and in a run. Serves demands 1 and 2: numbers 11 to 14, and a refused arrival
// changes nothing.
ghost use Rattle.std.specs.Prelude.{true, ◌||◌, ◌≡◌, ltb};
ghost use Rattle.tree.specs.Rules.{PlanRules};
ghost use Rattle.shape.specs.Shape.{tree_in};
ghost use Rattle.state.specs.declared.Link.{Link};
ghost use Rattle.totals.specs.WorkedOut.{totals_for, Roomy, Near};
ghost use Rattle.calls.specs.Arrival.{arrival_answer};
ghost use Rattle.steps.specs.Arrivals.{JudgesLeaf, ArrivesOn, TakesOn, lent_waiting};

use calls::Arrival;
use checks::{Refusal, Refused, Verdict};
use state::mark::marked_with;
use state::{Link, Packet, queue};
use totals::count;
use units::Bytes;

// Is the length out of range, 0 or above the longest? 13 reads bare lengths, and no charge.
fn out_of_range(length: u16, longest: u16) -> bool
    ensures { result ≡ (ltb length 1 || ltb longest length) }
{
    length < 1 || longest < length
}

// Checks 13 and 14 of an arrival to a leaf of a sound link, in this order.
fn judge(class: usize, length: u16, longest: u16, held: u8) -> Verdict
    ensures { JudgesLeaf class length longest held result }
{
    if out_of_range(length, longest) {
        return Err(Refused(Refusal::BadLength, class));
    }
    if Link::PLACES <= usize::from(held) {
        return Err(Refused(Refusal::Full, class));
    }
    Ok(())
}

// What a refused arrival answers: 0 bytes.
fn refused(verdict: Verdict) -> Arrival
    ensures { result ≡ arrival_answer verdict 0 }
{
    let bytes = Bytes(0);
    Arrival { verdict, bytes }
}

// An arrival: any class number, any length and any tag. A refused one changes nothing; an accepted one answers its leaf's total then.
pub fn arrive(
    sound: bool,
    class: usize,
    packet: Packet,
    shape: &[u64; 195],
    start: &[u8; 64],
    held: &mut [u8; 64],
    lengths: &mut [u16; 2048],
    tags: &mut [u32; 2048],
    marks: &mut [u64; 2048],
    charged: u64,
    packets: &mut [u64; 64],
    bytes: &mut [u64; 64],
) -> Arrival
    requires { sound ≡ true → PlanRules (tree_in shape.now)
        × Roomy (totals_for true (tree_in shape.now) packets.old bytes.old charged) }
    ensures arrives_on { (l : Link) → l.tree ≡ tree_in shape.now
        → (sound ≡ true → TakesOn (lent_waiting l start.now held.old lengths.old tags.old
        marks.old (totals_for sound (tree_in shape.now) packets.old bytes.old charged)))
        → ArrivesOn sound (lent_waiting l start.now held.old lengths.old tags.old
        marks.old (totals_for sound (tree_in shape.now) packets.old bytes.old charged)) class packet
        result (lent_waiting l start.now held.new lengths.new tags.new marks.new
        (totals_for sound (tree_in shape.now) packets.new bytes.new charged)) }
    ensures near { Near packets.old packets.new × Near bytes.old bytes.new }
{
    if !sound {
        return refused(Err(Refused(Refusal::NotSound, 0)));
    }
    let leaf = sets::holds(shape::leaves(shape), class);
    if !leaf {
        return refused(Err(Refused(Refusal::NoLeaf, class)));
    }
    let verdict = judge(
        class,
        packet.length,
        shape::longest(shape, class),
        held[class],
    );
    if let Ok(()) = verdict {
        queue::put(
            class,
            marked_with(charged, packet),
            start,
            held,
            lengths,
            tags,
            marks,
        );
        count(false, class, packet.length, packets, bytes);
        let waiting = Bytes(bytes[class]);
        return Arrival {
            verdict,
            bytes: waiting,
        };
    }
    refused(verdict)
}
