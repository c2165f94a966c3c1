// The steps of a link over lent number arrays: a whole send. What they are made of stands in the modules, and in
// `active` and `opening` what opens a round.
// Serves demand 2: a packet goes by R119 to R146.
#![tactic(auto)]

mod arrival;
mod inactive;
mod leaf;
pub mod once;
mod reopening;

ghost use Rattle.std.specs.Prelude.{true, ◌≡◌, List, ℕ};
ghost use Rattle.state.specs.declared.Totals.{Totals};
ghost use Rattle.shape.specs.Shape.{tree_in, Families};
ghost use Rattle.totals.specs.WorkedOut.{Near};
ghost use Rattle.steps.specs.Rounds.{InFields, Going, Kept, Finds, Departs, went_by, nothing_goes};
ghost use Rattle.steps.specs.Fields.{lent_link, link_at};

pub use active::{refresh, round_active};
pub use arrival::arrive;
use leaf::next_leaf;
pub use leaf::{Gone, goes};
pub use opening::open_round;
use reopening::{Found, reopened};
use state::{Link, Waiting};
use units::Bytes;

// Where a link stands, beside its arrays: the active set whose weight sums are kept, the size in force, who is active, the place, the
// running total.
#[derive(Clone, Copy)]
pub struct Stand {
    pub known: u64,
    pub size: Bytes,
    pub active: u64,
    pub place: usize,
    pub charged: u64,
}

// What a send gives beside the arrays it changes: whether a packet goes, which and of which class, the rounds opened in the call, and where
// the link then stands.
#[derive(Clone, Copy)]
pub struct Went {
    pub some: bool,
    pub class: usize,
    pub packet: Waiting,
    pub rounds: usize,
    pub stand: Stand,
}

// A packet has gone.
fn has_gone(next: Found, gone: Gone) -> Went
    ensures { result ≡ went_by next gone }
{
    let packet = gone.packet;
    let size = next.size;
    let stand = Stand {
        known: next.known,
        size,
        active: gone.active,
        place: next.class,
        charged: gone.charged,
    };
    Went {
        some: true,
        class: next.class,
        packet,
        rounds: next.rounds,
        stand,
    }
}

// No packet waits: nothing changes.
pub fn nothing(stand: Stand) -> Went
    ensures { result ≡ nothing_goes stand }
{
    Went {
        some: false,
        class: 0,
        packet: Waiting {
            length: 0,
            tag: 0,
            mark: 0,
        },
        rounds: 0,
        stand,
    }
}

// The leaf that sends next while a packet waits: found at once, or in a round that is opened.
fn next_sender(
    shape: &[u64; 195],
    kept: &mut [u32; 64],
    stand: Stand,
    balance: &mut [u64; 64],
    residual: &mut [u64; 64],
    start: &[u8; 64],
    held: &[u8; 64],
    lengths: &[u16; 2048],
) -> Found
    requires { ((tags : List ℕ) × (marks : List ℕ) × (totals : Totals)
        × Going (tree_in shape.now) stand.size stand.active stand.place balance.old residual.old start.now held.now
        lengths.now tags marks totals)
        × Kept (tree_in shape.now) stand.known kept.old }
    ensures by_index { (tags marks : List ℕ) (totals : Totals)
        → Going (tree_in shape.now) stand.size stand.active stand.place balance.old residual.old
        start.now held.now lengths.now tags marks totals
        → Finds (lent_link (tree_in shape.now) stand.size stand.active stand.place balance.old
        residual.old
        start.now held.now lengths.now tags marks totals) result
        (λ after active place. lent_link (tree_in shape.now) after active place balance.new residual.new
        start.now held.now lengths.now tags marks totals) }
    ensures kept { Kept (tree_in shape.now) result.known kept.new }
{
    let size = stand.size;
    let leaves = sets::both(stand.active, shape::leaves(shape));
    let i = next_leaf(leaves, stand.place, balance, start, lengths);
    if i < Link::CLASSES {
        return Found {
            class: i,
            rounds: 0,
            active: stand.active,
            size,
            known: stand.known,
        };
    }
    reopened(
        shape,
        stand.known,
        kept,
        size,
        balance,
        residual,
        start,
        held,
        lengths,
    )
}

// A whole send on a sound link, unless the root counts no packet: the next leaf sends; where the round has closed rounds are opened until
// one does.
pub fn send(
    shape: &[u64; 195],
    children: &[u64; 64],
    kept: &mut [u32; 64],
    stand: Stand,
    balance: &mut [u64; 64],
    residual: &mut [u64; 64],
    start: &mut [u8; 64],
    held: &mut [u8; 64],
    lengths: &[u16; 2048],
    tags: &[u32; 2048],
    marks: &[u64; 2048],
    packets: &mut [u64; 64],
    bytes: &mut [u64; 64],
) -> Went
    requires { InFields (link_at true (tree_in shape.now) stand balance.old residual.old start.old held.old lengths.now
        tags.now
        marks.now packets.old bytes.old)
        × Families (tree_in shape.now) children.now × Kept (tree_in shape.now) stand.known kept.old }
    ensures departs { Departs (link_at true (tree_in shape.now) stand balance.old residual.old start.old
        held.old lengths.now tags.now marks.now packets.old bytes.old)
        result (link_at true (tree_in shape.now) result.stand balance.new residual.new start.new
        held.new
        lengths.now tags.now marks.now packets.new bytes.new) }
    ensures kept { Kept (tree_in shape.now) result.stand.known kept.new }
    ensures near { Near packets.old packets.new × Near bytes.old bytes.new }
{
    if packets[0] == 0 {
        return nothing(stand);
    }
    let next = next_sender(shape, kept, stand, balance, residual, start, held, lengths);
    let gone = goes(
        next.class,
        next.active,
        shape,
        children,
        balance,
        residual,
        start,
        held,
        lengths,
        tags,
        marks,
        stand.charged,
        packets,
        bytes,
    );
    has_gone(next, gone)
}
