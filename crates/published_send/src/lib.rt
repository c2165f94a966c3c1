// A whole send of the second engine on a sound link on which a packet waits, over lent number arrays, the tree among them (`shape`): visits
// that ask first, and the packet that goes by the first engine's own step. Named for specs/Whole.
// Serves demand 2.
#![tactic(auto)]

mod rounds;

ghost use Rattle.std.specs.Prelude.{true, List, ◌≡◌, ℕ};
ghost use Rattle.totals.specs.WorkedOut.{Near};
ghost use Rattle.shape.specs.Shape.{tree_in, Families};
ghost use Rattle.active.specs.Known.{Kept};
ghost use Rattle.steps.specs.Fields.{link_at};
ghost use Rattle.published.specs.Second.{means};
ghost use Rattle.published_send.specs.Under.{Arrived};
ghost use Rattle.published_send.specs.Whole.{second_of, Ready, gone_by, Wholly};

use asking::visit;
use rounds::{Turned, reopened};
use state::{Link, Waiting};
use steps::{Gone, Stand, goes};

// The leaf that sends next while a packet waits: found by the visits of the round at hand, or in a round that is opened.
fn next_sender(
    shape: &[u64; 195],
    kept: &mut [u32; 64],
    stand: Stand,
    asked: u64,
    balance: &mut [u64; 64],
    residual: &mut [u64; 64],
    quotas: &mut [u64; 64],
    start: &[u8; 64],
    held: &[u8; 64],
    lengths: &[u16; 2048],
) -> Turned
    requires { ((tags : List ℕ) × (marks : List ℕ) × (packets : List ℕ) × (bytes : List ℕ)
        × Ready (second_of (link_at true (tree_in shape.now) stand balance.old residual.old start.now held.now
        lengths.now tags marks
        packets bytes) asked quotas.old))
        × Kept (tree_in shape.now) stand.known kept.old }
    ensures arrived { (tags marks packets bytes : List ℕ)
        → Ready (second_of (link_at true (tree_in shape.now) stand balance.old residual.old start.now
        held.now lengths.now tags marks packets bytes) asked quotas.old)
        → Arrived (means (second_of (link_at true (tree_in shape.now) stand balance.old residual.old
        start.now held.now lengths.now tags marks packets bytes) asked quotas.old)) result
        shape.now balance.new residual.new quotas.new }
    ensures kept { Kept (tree_in shape.now) result.known kept.new }
{
    let size = stand.size;
    let leaves = sets::both(stand.active, shape::leaves(shape));
    let came = visit(
        leaves,
        stand.place,
        asked,
        stand.active,
        shape,
        balance,
        residual,
        quotas,
        start,
        lengths,
    );
    if came.leaf < Link::CLASSES {
        return Turned {
            leaf: came.leaf,
            rounds: 0,
            active: stand.active,
            asked: came.asked,
            size,
            known: stand.known,
        };
    }
    reopened(
        shape,
        stand.known,
        kept,
        size,
        balance,
        residual,
        quotas,
        start,
        held,
        lengths,
    )
}

// What a send gives beside the arrays that it changes: the packet and its class, the rounds opened in the call, who has asked, and where
// the link then stands.
#[derive(Drop)]
pub struct Sent {
    pub class: usize,
    pub packet: Waiting,
    pub rounds: usize,
    pub asked: u64,
    pub stand: Stand,
}

// A packet has gone.
fn has_gone(next: Turned, gone: Gone) -> Sent
    ensures { result ≡ gone_by next gone }
{
    Sent {
        class: next.leaf,
        packet: gone.packet,
        rounds: next.rounds,
        asked: next.asked,
        stand: Stand {
            known: next.known,
            size: next.size,
            active: gone.active,
            place: next.leaf,
            charged: gone.charged,
        },
    }
}

// A whole send: the next leaf sends.
pub fn send(
    shape: &[u64; 195],
    children: &[u64; 64],
    kept: &mut [u32; 64],
    stand: Stand,
    asked: u64,
    balance: &mut [u64; 64],
    residual: &mut [u64; 64],
    quotas: &mut [u64; 64],
    start: &mut [u8; 64],
    held: &mut [u8; 64],
    lengths: &[u16; 2048],
    tags: &[u32; 2048],
    marks: &[u64; 2048],
    packets: &mut [u64; 64],
    bytes: &mut [u64; 64],
) -> Sent
    requires { Ready (second_of (link_at true (tree_in shape.now) stand balance.old residual.old start.old held.old lengths.now
        tags.now marks.now packets.old bytes.old) asked quotas.old)
        × Families (tree_in shape.now) children.now × Kept (tree_in shape.now) stand.known kept.old }
    ensures wholly { Wholly (second_of (link_at true (tree_in shape.now) stand balance.old residual.old
        start.old held.old lengths.now tags.now marks.now packets.old
        bytes.old) asked quotas.old)
        result (link_at true (tree_in shape.now) result.stand balance.new residual.new start.new
        held.new lengths.now tags.now marks.now packets.new bytes.new)
        quotas.new }
    ensures kept { Kept (tree_in shape.now) result.stand.known kept.new }
    ensures near { Near packets.old packets.new × Near bytes.old bytes.new }
{
    let next = next_sender(
        shape, kept, stand, asked, balance, residual, quotas, start, held, lengths,
    );
    let gone = goes(
        next.leaf,
        next.active,
        shape,
        children,
        balance,
        residual,
        start,
        held,
        lengths,
        tags,
        marks,
        stand.charged,
        packets,
        bytes,
    );
    has_gone(next, gone)
}
