// Visits: each asks first, until a leaf's balance covers its first packet or the round has closed. Named for published/specs/Visiting.
ghost use Rattle.std.specs.Prelude.{◌≡◌, ℕ, ◌<◌, ◌≤◌, get_or};
ghost use Rattle.units.specs.Cost.{cost_of};
ghost use Rattle.state.specs.Queue.{slot};
ghost use Rattle.published.specs.Asking.{Published};
ghost use Rattle.published.specs.Sound.{SoundPublished, WidePublished};
ghost use Rattle.asking.specs.Lent.{Lent};
ghost use Rattle.asking.specs.Coming.{Lying, Found};

use crate::ask;
use state::queue;

// The leaf that sends, or 64 where the round has closed, and who has asked by then.
#[derive(Drop)]
pub struct Came {
    pub leaf: usize,
    pub asked: u64,
}

// What the first packet of a leaf costs, where it lies.
fn first_cost(i: usize, start: &[u8; 64], lengths: &[u16; 2048]) -> u64
    requires { (i < 64) × (get_or start.now i 0 < 32) }
    ensures { result ≡ cost_of (get_or lengths.now (slot i (get_or start.now i 0)) 0) }
{
    let s = start[i] as usize;
    units::cost(lengths[queue::slot(i, s)]).0
}

// Visit by visit from a place on.
pub fn visit(
    leaves: u64,
    place: usize,
    asked: u64,
    active: u64,
    shape: &[u64; 195],
    balance: &mut [u64; 64],
    residual: &mut [u64; 64],
    quotas: &mut [u64; 64],
    start: &[u8; 64],
    lengths: &[u16; 2048],
) -> Came
    requires { ((x : Published) × Lent x active asked shape.now balance.old residual.old quotas.old
        × Lying x leaves start.now lengths.now × SoundPublished x × WidePublished x)
        × (1 ≤ place) × (place ≤ 64) × ((i : ℕ) → i < 64 → get_or start.now i 0 < 32) }
    ensures { (x : Published)
        → Lent x active asked shape.now balance.old residual.old quotas.old
        → Lying x leaves start.now lengths.now → SoundPublished x → WidePublished x
        → Found x place result.leaf active result.asked shape.now balance.new residual.new
        quotas.new }
{
    let mut asked = asked;
    let mut at = place;
    loop {
        let i = sets::next(leaves, at);
        if i == 64 {
            return Came { leaf: 64, asked };
        }
        asked = ask(i, true, asked, active, shape, balance, residual, quotas);
        let cost = first_cost(i, start, lengths);
        if cost <= balance[i] {
            return Came { leaf: i, asked };
        }
        at = i + 1;
    }
}
