// One call by itself, on a link whose totals are all worked out: the step, and the totals worked out after it. Calls made one after the
// other
// take the steps themselves, and work them out once. Serves demand 2.
ghost use Rattle.std.specs.Prelude.{true, false, ◌≡◌};
ghost use Rattle.tree.specs.Rules.{PlanRules};
ghost use Rattle.shape.specs.Shape.{tree_in, Families};
ghost use Rattle.state.specs.declared.Link.{Link};
ghost use Rattle.totals.specs.WorkedOut.{totals_for, InTotal};
ghost use Rattle.steps.specs.Arrivals.{ArrivesOn, TakesOn, lent_waiting};
ghost use Rattle.steps.specs.Fields.{link_at};
ghost use Rattle.steps.specs.Rounds.{InFields, Kept, Departs};

use crate::{Stand, Went, arrival};
use calls::Arrival;
use state::Packet;
use totals::work_out;

// An arrival: any class number, any length and any tag.
pub fn arrive(
    sound: bool,
    class: usize,
    packet: Packet,
    shape: &[u64; 195],
    children: &[u64; 64],
    start: &[u8; 64],
    held: &mut [u8; 64],
    lengths: &mut [u16; 2048],
    tags: &mut [u32; 2048],
    marks: &mut [u64; 2048],
    charged: u64,
    packets: &mut [u64; 64],
    bytes: &mut [u64; 64],
) -> Arrival
    requires { sound ≡ true → PlanRules (tree_in shape.now) × Families (tree_in shape.now) children.now
        × InTotal (tree_in shape.now) packets.old bytes.old }
    ensures { (l : Link) → l.tree ≡ tree_in shape.now
        → (sound ≡ true → TakesOn (lent_waiting l start.now held.old lengths.old tags.old
        marks.old (totals_for false l.tree packets.old bytes.old charged)))
        → ArrivesOn sound (lent_waiting l start.now held.old lengths.old tags.old
        marks.old (totals_for false l.tree packets.old bytes.old charged)) class packet
        result (lent_waiting l start.now held.new lengths.new tags.new marks.new
        (totals_for false l.tree packets.new bytes.new charged)) }
{
    let answer = arrival::arrive(
        sound, class, packet, shape, start, held, lengths, tags, marks, charged, packets, bytes,
    );
    work_out(sound, shape, children, packets, bytes);
    answer
}

// A send on a sound link.
pub fn send(
    shape: &[u64; 195],
    children: &[u64; 64],
    kept: &mut [u32; 64],
    stand: Stand,
    balance: &mut [u64; 64],
    residual: &mut [u64; 64],
    start: &mut [u8; 64],
    held: &mut [u8; 64],
    lengths: &[u16; 2048],
    tags: &[u32; 2048],
    marks: &[u64; 2048],
    packets: &mut [u64; 64],
    bytes: &mut [u64; 64],
) -> Went
    requires { InFields (link_at false (tree_in shape.now) stand balance.old residual.old start.old held.old lengths.now
        tags.now marks.now packets.old bytes.old)
        × Families (tree_in shape.now) children.now × Kept (tree_in shape.now) stand.known kept.old }
    ensures { Departs (link_at false (tree_in shape.now) stand balance.old residual.old
        start.old held.old lengths.now tags.now marks.now packets.old
        bytes.old)
        result (link_at false (tree_in shape.now) result.stand balance.new residual.new start.new
        held.new
        lengths.now tags.now marks.now packets.new bytes.new) }
{
    let went = crate::send(
        shape, children, kept, stand, balance, residual, start, held, lengths, tags, marks,
        packets, bytes,
    );
    work_out(true, shape, children, packets, bytes);
    went
}
