// The leaf that sends next: found by its balance, it pays for its first packet, which leaves its queue.
// Serves demand 2.
ghost use Rattle.std.specs.Prelude.{true, ◌≡◌, ℕ, ◌<◌, ◌≤◌, get_or};
ghost use Rattle.state.specs.Account.{balance_of};
ghost use Rattle.rules.specs.Sending.{paid_by, next_leaf};
ghost use Rattle.rules.specs.Steps.{Fit};
ghost use Rattle.state.specs.declared.Link.{Link};
ghost use Rattle.state.specs.Queue.{packet_at};
ghost use Rattle.state.specs.State.{meaning};
ghost use Rattle.shape.specs.Shape.{tree_in, Families};
ghost use Rattle.state.specs.Account.{zip_accounts};
ghost use Rattle.steps.specs.Fields.{lent_link, totals_for, Searched, GoesNext};
ghost use Rattle.totals.specs.WorkedOut.{Near};
ghost use Rattle.units.specs.declared.Bytes.{Bytes};
ghost use Rattle.rules.specs.After.{sent_link};

use crate::inactive::turn_off;
use state::lent_accounts::{account_of, keep_balance};
use state::mark::grown;
use state::{Link, Waiting, queue};
use totals::count;
use units::Bytes;

// Step 1: the lowest-numbered active leaf not below the place whose balance covers its first packet, or 64 where the round has closed.
pub(crate) fn next_leaf(
    leaves: u64,
    place: usize,
    balance: &[u64; 64],
    start: &[u8; 64],
    lengths: &[u16; 2048],
) -> usize
    requires { (place ≤ 64) × ((i : ℕ) → i < 64 → get_or start.now i 0 < 32) }
    ensures { (l : Link) → Searched l leaves place balance.now start.now lengths.now
        → result ≡ next_leaf (meaning l) }
{
    let mut at = place;
    loop {
        let i = sets::next(leaves, at);
        if i == Link::CLASSES {
            return Link::CLASSES;
        }
        let s = usize::from(start[i]);
        let cost = units::cost(lengths[queue::slot(i, s)]);
        let held = Bytes(balance[i]);
        if held.covers(cost) {
            return i;
        }
        at = i + 1;
    }
}

// Leaf i loses what a packet costs, the root's balance gains it.
fn pay(i: usize, cost: Bytes, balance: &mut [u64; 64], residual: &[u64; 64])
    requires { Fit (zip_accounts balance.old residual.now) × (i < 64)
        × (cost.0 ≤ balance_of (zip_accounts balance.old residual.now) i) }
    ensures { zip_accounts balance.new residual.now
        ≡ paid_by (zip_accounts balance.old residual.now) i cost.0 }
{
    let leaf = account_of(i, balance, residual);
    keep_balance(i, leaf.send(cost), balance);
    let root = account_of(0, balance, residual);
    keep_balance(0, root.gain(cost), balance);
}

// The packet that goes, who is active after it, and the running total with its charge.
#[derive(Drop)]
pub struct Gone {
    pub packet: Waiting,
    pub active: u64,
    pub charged: u64,
}

// Leaf i sends its first packet; if that was its last, it turns inactive at once, and so on up.
pub fn goes(
    i: usize,
    active: u64,
    shape: &[u64; 195],
    children: &[u64; 64],
    balance: &mut [u64; 64],
    residual: &mut [u64; 64],
    start: &mut [u8; 64],
    held: &mut [u8; 64],
    lengths: &[u16; 2048],
    tags: &[u32; 2048],
    marks: &[u64; 2048],
    charged: u64,
    packets: &mut [u64; 64],
    bytes: &mut [u64; 64],
) -> Gone
    requires { ((size : Bytes) × (place : ℕ) × GoesNext (tree_in shape.now) size place i active balance.old residual.old start.old
        held.old lengths.now tags.now marks.now (totals_for true (tree_in shape.now) packets.old bytes.old charged))
        × Families (tree_in shape.now) children.now }
    ensures packet_value { (size : Bytes) (place : ℕ)
        → GoesNext (tree_in shape.now) size place i active balance.old residual.old start.old
        held.old lengths.now tags.now marks.now
        (totals_for true (tree_in shape.now) packets.old bytes.old charged)
        → (result.packet ≡ packet_at (lent_link (tree_in shape.now) size active place balance.old residual.old
        start.old held.old lengths.now tags.now marks.now
        (totals_for true (tree_in shape.now) packets.old bytes.old charged)) i 0)
        × (lent_link (tree_in shape.now) size result.active i balance.new residual.new start.new
        held.new lengths.now tags.now marks.now
        (totals_for true (tree_in shape.now) packets.new bytes.new result.charged)
        ≡ sent_link (lent_link (tree_in shape.now) size active place balance.old residual.old
        start.old
        held.old lengths.now tags.now marks.now
        (totals_for true (tree_in shape.now) packets.old bytes.old charged)) i) }
    ensures near { Near packets.old packets.new × Near bytes.old bytes.new }
{
    let packet = queue::first(i, start, lengths, tags, marks);
    let cost = units::cost(packet.length);
    pay(i, cost, balance, residual);
    count(true, i, packet.length, packets, bytes);
    let total = grown(charged, cost.0);
    let waiting = usize::from(held[i]);
    queue::take(i, start, held);
    if 1 < waiting {
        return Gone {
            packet,
            active,
            charged: total,
        };
    }
    let off = turn_off(i, active, shape, children, balance, residual);
    Gone {
        packet,
        active: off,
        charged: total,
    }
}
