// Why a leaf is silent: for any link and any class number one of four reasons, with the exact shortfall, or a refusal as for an arrival
// (R207 to R213). `why` is an entry for callers outside: it asks nothing (R196), and the link that it reads stays as it is.
#![tactic(auto)]

ghost use Rattle.std.specs.Prelude.{◌≡◌, true, ◌+◌, ◌<◌};
ghost use Rattle.units.specs.Cost.{cost_of};
ghost use Rattle.tree.specs.Class.{is_leaf};
ghost use Rattle.state.specs.State.{meaning};
ghost use Rattle.sound.specs.Sound.{SoundLink};
ghost use Rattle.reasons.specs.Reason.{IsTrue};
ghost use Rattle.reasons.specs.Answer.{SaysWhy};

use checks::{Refusal, Refused};
use state::Link;
use state::queue::slot;
use units::Bytes;

// Why a leaf sends nothing.
#[derive(Clone, Copy)]
pub enum Reason {
    // it holds no packet
    Empty,
    // it holds some but is not in this round
    Waits,
    // it is in the round, numbered below the place, and lacks so many bytes
    Short(Bytes),
    // its visit is under way or still to come
    Due,
}

// The answer: a reason, or what is refused.
pub type Silence = Result<Reason, Refused>;

// What a balance lacks of what a packet is charged.
pub fn shortfall(balance: Bytes, first: u16) -> Bytes
    requires { balance.0 < cost_of first }
    ensures { balance.0 + result.0 ≡ cost_of first }
{
    let cost = units::cost(first);
    cost.less(balance)
}

// The reason that is true of a leaf.
fn reason_of(link: Link, class: usize) -> Reason
    requires { SoundLink link × (is_leaf link.tree class ≡ true) }
    ensures { IsTrue (meaning link) class result }
{
    if link.held[class] == 0 {
        return Reason::Empty;
    }
    if !sets::has(link.round.active, class) {
        return Reason::Waits;
    }
    if link.round.place <= class {
        return Reason::Due;
    }
    let at = slot(class, usize::from(link.start[class]));
    let round = link.round;
    let account = round.accounts[class];
    let balance = account.balance;
    let lacks = shortfall(balance, link.lengths[at]);
    Reason::Short(lacks)
}

// Why the class of this number sends nothing: 11, then 12, else the reason.
pub fn why(link: Link, class: usize) -> Silence
    ensures { SaysWhy link class result }
{
    if !sound::is_sound(link) {
        return Err(Refused(Refusal::NotSound, 0));
    }
    let tree = link.tree;
    if !sets::holds(tree.leaves, class) {
        return Err(Refused(Refusal::NoLeaf, class));
    }
    let reason = reason_of(link, class);
    Ok(reason)
}
