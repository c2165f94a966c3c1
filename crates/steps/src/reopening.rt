// Rounds are opened until a leaf sends. Named for specs/Rounds.
// Serves demand 2.
ghost use Rattle.std.specs.Prelude.{true, ◌≡◌, ◌<◌};
ghost use Rattle.rules.specs.Steps.{OnTheWay};
ghost use Rattle.sets.specs.Set.{has};
ghost use Rattle.tree.specs.Rules.{PlanRules};
ghost use Rattle.shape.specs.Shape.{tree_in};
ghost use Rattle.active.specs.Known.{Summed};
ghost use Rattle.steps.specs.Rounds.{Unseen, Closed, Opens, Kept, Finds, closed_link, open_link};
ghost use Rattle.steps.specs.Fields.{lent_link};

use crate::leaf::next_leaf;
use active::{refresh, round_active};
use opening::open_round;
use state::Link;
use units::Bytes;

// The leaf that sends, the rounds opened for it, who is active at its turn, the size in force, and the set whose weight sums are kept.
#[derive(Drop)]
pub struct Found {
    pub class: usize,
    pub rounds: usize,
    pub active: u64,
    pub size: Bytes,
    pub known: u64,
}

// Rounds are opened until a leaf sends; who is active, and so the weight sums, is the same in each.
fn open_until_sent(
    shape: &[u64; 195],
    active: u64,
    sums: &[u32; 64],
    size: Bytes,
    balance: &mut [u64; 64],
    residual: &mut [u64; 64],
    start: &[u8; 64],
    lengths: &[u16; 2048],
) -> Found
    requires { ((k : Unseen) × Opens (tree_in shape.now) size k active balance.old residual.old start.now lengths.now)
        × Summed (tree_in shape.now) active sums.now }
    ensures on_the_way { (k : Unseen)
        → Opens (tree_in shape.now) size k active balance.old residual.old start.now
        lengths.now
        → OnTheWay (closed_link (tree_in shape.now) size k balance.old residual.old start.now
        lengths.now) result.class
        (open_link (tree_in shape.now) result.size k active balance.new residual.new start.now
        lengths.now) result.rounds }
    ensures class_bound { (result.class < 64) × (result.active ≡ active) × (result.known ≡ active) }
{
    let leaves = sets::both(active, shape::leaves(shape));
    let mut rounds: usize = 0;
    let mut in_force = size;
    loop {
        in_force = open_round(shape, active, sums, in_force, balance, residual);
        rounds += 1;
        let class = next_leaf(leaves, 1, balance, start, lengths);
        if class < Link::CLASSES {
            return Found {
                class,
                rounds,
                active,
                size: in_force,
                known: active,
            };
        }
    }
}

// The kept weight sums are those of an active set: as they are, where they are of this set, and else worked out.
fn keep_sums(shape: &[u64; 195], active: u64, known: u64, kept: &mut [u32; 64])
    requires { PlanRules (tree_in shape.now) × Kept (tree_in shape.now) known kept.old × (has active 0 ≡ true) }
    ensures { Summed (tree_in shape.now) active kept.new }
{
    if active != known {
        refresh(shape, active, kept);
    }
}

// The round has closed while a packet waits: rounds are opened until a leaf sends.
pub(crate) fn reopened(
    shape: &[u64; 195],
    known: u64,
    kept: &mut [u32; 64],
    size: Bytes,
    balance: &mut [u64; 64],
    residual: &mut [u64; 64],
    start: &[u8; 64],
    held: &[u8; 64],
    lengths: &[u16; 2048],
) -> Found
    requires { ((k : Unseen) × (k.held ≡ held.now)
        × Closed (tree_in shape.now) size k balance.old residual.old start.now lengths.now)
        × Kept (tree_in shape.now) known kept.old }
    ensures finds { (k : Unseen) → k.held ≡ held.now
        → Closed (tree_in shape.now) size k balance.old residual.old start.now
        lengths.now
        → Finds (closed_link (tree_in shape.now) size k balance.old residual.old start.now
        lengths.now) result
        (λ after active place. lent_link (tree_in shape.now) after active place balance.new residual.new
        start.now k.held lengths.now k.tags k.marks k.totals) }
    ensures kept { Kept (tree_in shape.now) result.known kept.new }
{
    let active = round_active(shape, known, held);
    keep_sums(shape, active, known, kept);
    open_until_sent(shape, active, kept, size, balance, residual, start, lengths)
}
