// Why a leaf of the link in the caller's arrays is silent (R351): the reasons of crate reasons, read off the arrays.
// Serves demands 1 and 2.
ghost use Rattle.std.specs.Prelude.{true, ◌≡◌, length};
ghost use Rattle.tree.specs.Class.{is_leaf};
ghost use Rattle.state.specs.Account.{zip_accounts};
ghost use Rattle.state.specs.State.{meaning};
ghost use Rattle.sound.specs.Sound.{SoundLink};
ghost use Rattle.reasons.specs.Reason.{IsTrue};
ghost use Rattle.reasons.specs.Answer.{SaysWhy};
ghost use Rattle.shape.specs.Shape.{tree_in};
ghost use Rattle.answers.specs.Burst.{link_in};

use answers::lent_arrays;
use checks::{Refusal, Refused};
use reasons::{Reason, Silence};
use state::lent_accounts::account_of;
use state::queue::slot;

// The reason that is true of a leaf.
fn reason_in(
    shape: &[u64; 195],
    stand: &[u64; 4],
    balance: &[u64; 64],
    residual: &[u64; 64],
    start: &[u8; 64],
    held: &[u8; 64],
    lengths: &[u16; 2048],
    tags: &[u32; 2048],
    marks: &[u64; 2048],
    packets: &[u64; 64],
    bytes: &[u64; 64],
    class: usize,
) -> Reason
    requires { SoundLink (link_in shape.now stand.now balance.now residual.now start.now held.now lengths.now
        tags.now marks.now packets.now bytes.now) × (is_leaf (tree_in shape.now) class ≡ true) × (length (zip_accounts
        balance.now residual.now) ≡ 64) }
    ensures { IsTrue (meaning (link_in shape.now stand.now balance.now residual.now start.now held.now lengths.now tags.now marks.now
        packets.now bytes.now)) class result }
{
    if held[class] == 0 {
        return Reason::Empty;
    }
    if !sets::has(stand[1], class) {
        return Reason::Waits;
    }
    if stand[2] as usize <= class {
        return Reason::Due;
    }
    let at = slot(class, usize::from(start[class]));
    let account = account_of(class, balance, residual);
    let lacks = reasons::shortfall(account.balance, lengths[at]);
    Reason::Short(lacks)
}

// Why the class of this number sends nothing: 11, then 12, else the reason.
pub(crate) fn why(
    shape: &[u64; 195],
    stand: &[u64; 4],
    balance: &[u64; 64],
    residual: &[u64; 64],
    start: &[u8; 64],
    held: &[u8; 64],
    lengths: &[u16; 2048],
    tags: &[u32; 2048],
    marks: &[u64; 2048],
    packets: &[u64; 64],
    bytes: &[u64; 64],
    class: usize,
) -> Silence
    ensures { SaysWhy (link_in shape.now stand.now balance.now residual.now
        start.now held.now lengths.now tags.now marks.now packets.now
        bytes.now) class result }
{
    lent_arrays::known(
        balance, residual, start, held, lengths, tags, marks, packets, bytes,
    );
    if !crate::sound_in(
        shape, stand, balance, residual, start, held, lengths, packets, bytes,
    ) {
        return Err(Refused(Refusal::NotSound, 0));
    }
    if !sets::holds(shape::leaves(shape), class) {
        return Err(Refused(Refusal::NoLeaf, class));
    }
    let reason = reason_in(
        shape, stand, balance, residual, start, held, lengths, tags, marks, packets, bytes, class,
    );
    Ok(reason)
}
