// Rounds of the second engine are opened until a leaf sends: who is active, the kind, the size in force and the difference that the root
// takes are the first engine's. Named for specs/Under.
// Serves demand 2.
ghost use Rattle.std.specs.Prelude.{◌≡◌, ℕ, ◌<◌, get_or};
ghost use Rattle.rules.specs.Opening.{kind_is};
ghost use Rattle.rules.specs.Steps.{CanResize};
ghost use Rattle.state.specs.Account.{zip_accounts};
ghost use Rattle.shape.specs.Shape.{tree_in};
ghost use Rattle.active.specs.Known.{Summed, Kept};
ghost use Rattle.published.specs.declared.Second.{Second};
ghost use Rattle.published.specs.Asking.{Published};
ghost use Rattle.published.specs.Second.{means};
ghost use Rattle.published.specs.Visiting.{asked_first};
ghost use Rattle.published_send.specs.Under.{OpensUnshared, Under, Arrived};
ghost use Rattle.published_send.specs.Whole.{HasClosed};

use active::{refresh, round_active};
use asking::visit;
use opening::begin_round;
use state::Link;
use units::Bytes;

// Who has a quota when a round opens: in a surplus round the root, in a main round no class.
fn asked_first(surplus: bool) -> u64
    ensures { result ≡ asked_first (kind_is surplus) }
{
    if surplus { sets::with(0, 0) } else { 0 }
}

// Who has a quota when a round has opened, and the size in force.
#[derive(Drop)]
pub struct Opening {
    pub asked: u64,
    pub size: Bytes,
}

// A round opens that shares out nothing yet; the root's quota is 0 until it asks.
fn open_unshared(
    shape: &[u64; 195],
    active: u64,
    sums: &[u32; 64],
    size: Bytes,
    balance: &mut [u64; 64],
    residual: &mut [u64; 64],
    quotas: &mut [u64; 64],
) -> Opening
    requires { CanResize (tree_in shape.now) active size.0 (zip_accounts balance.old residual.old)
        × Summed (tree_in shape.now) active sums.now }
    ensures { OpensUnshared (tree_in shape.now) active size.0
        (zip_accounts balance.old residual.old) quotas.old
        result (zip_accounts balance.new residual.new) quotas.new }
{
    let begun = begin_round(shape, active, sums, size, balance, residual);
    quotas[0] = 0;
    Opening {
        asked: asked_first(begun.surplus),
        size: begun.size,
    }
}

// The leaf that sends, the rounds opened for it, who is active at its turn, who has asked by then, the size in force, and the set whose
// weight sums are kept.
#[derive(Drop)]
pub struct Turned {
    pub leaf: usize,
    pub rounds: usize,
    pub active: u64,
    pub asked: u64,
    pub size: Bytes,
    pub known: u64,
}

// Rounds are opened until a leaf sends; who is active, and so the weight sums, is the same in each.
fn open_until_sent(
    shape: &[u64; 195],
    active: u64,
    sums: &[u32; 64],
    size: Bytes,
    balance: &mut [u64; 64],
    residual: &mut [u64; 64],
    quotas: &mut [u64; 64],
    start: &[u8; 64],
    lengths: &[u16; 2048],
) -> Turned
    requires { ((x₀ : Published)
        × Under x₀ size.0 active 0 shape.now balance.old residual.old quotas.old start.now lengths.now)
        × Summed (tree_in shape.now) active sums.now × ((i : ℕ) → i < 64 → get_or start.now i 0 < 32) }
    ensures arrived { (x₀ : Published)
        → Under x₀ size.0 active 0 shape.now balance.old residual.old quotas.old
        start.now lengths.now
        → Arrived x₀ result shape.now balance.new residual.new quotas.new }
    ensures known_value { result.known ≡ active }
{
    let leaves = sets::both(active, shape::leaves(shape));
    let mut rounds: usize = 0;
    let mut in_force = size;
    loop {
        let first = open_unshared(shape, active, sums, in_force, balance, residual, quotas);
        in_force = first.size;
        rounds += 1;
        let came = visit(
            leaves,
            1,
            first.asked,
            active,
            shape,
            balance,
            residual,
            quotas,
            start,
            lengths,
        );
        if came.leaf < Link::CLASSES {
            return Turned {
                leaf: came.leaf,
                rounds,
                active,
                asked: came.asked,
                size: in_force,
                known: active,
            };
        }
    }
}

// The round at hand has closed while a packet waits: the weight sums are worked out, and rounds are opened until a leaf sends.
pub(crate) fn reopened(
    shape: &[u64; 195],
    known: u64,
    kept: &mut [u32; 64],
    size: Bytes,
    balance: &mut [u64; 64],
    residual: &mut [u64; 64],
    quotas: &mut [u64; 64],
    start: &[u8; 64],
    held: &[u8; 64],
    lengths: &[u16; 2048],
) -> Turned
    requires { ((l : Second) × HasClosed l size shape.now balance.old residual.old quotas.old start.now held.now
        lengths.now) × Kept (tree_in shape.now) known kept.old }
    ensures arrived { (l : Second)
        → HasClosed l size shape.now balance.old residual.old quotas.old start.now
        held.now lengths.now
        → Arrived (means l) result shape.now balance.new residual.new quotas.new }
    ensures kept { Kept (tree_in shape.now) result.known kept.new }
{
    let active = round_active(shape, known, held);
    refresh(shape, active, kept);
    open_until_sent(
        shape, active, kept, size, balance, residual, quotas, start, lengths,
    )
}
