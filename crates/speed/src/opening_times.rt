// The loop of openings that bin/speed times: rounds opened on a plan's link, one over the other. No part of the product.
// It shows what an opening costs (docs/speed.md). The plan is one of rule 1: under rule 2 a round may only open where one has closed.
ghost use Rattle.std.specs.Prelude.{◌≡◌, false, length};
ghost use Rattle.shape.specs.Shape.{tree_in};
ghost use Rattle.sound.specs.Sound.{SoundLink};
ghost use Rattle.rules.specs.After.{opened_link};
ghost use Rattle.steps.specs.Fields.{lent_link};
ghost use Rattle.steps.specs.Rounds.{InFields};
ghost use Rattle.run.specs.Run.{begin_of};
ghost use Rattle.speed.specs.Openings.{Rest, offered_to, opened_times, root_left, left_after};

use state::{Link, Packet, Round};
use units::Bytes;

// A packet is offered to every class: each leaf takes it.
fn backlogged(link: Link) -> Link
    requires { SoundLink link }
    ensures { (result ≡ offered_to 63 link) × SoundLink result }
{
    let mut link = link;
    for i in 1..Link::CLASSES {
        let answered = link::arrive(link, i, Packet { length: 1, tag: 0 });
        link = answered.link;
    }
    link
}

// A round opens over the fields of a link that it reads and changes: who is active in it. The weight sums are worked out anew each time.
fn open_next(
    shape: &[u64; 195],
    kept: &mut [u32; Link::CLASSES],
    size: Bytes,
    held: &[u8; Link::CLASSES],
    balance: &mut [u64; Link::CLASSES],
    residual: &mut [u64; Link::CLASSES],
) -> u64
    requires { ((k : Rest) × InFields (lent_link (tree_in shape.now) size k.active k.place balance.old residual.old k.start
        held.now k.lengths k.tags k.marks k.totals))
        × ((tree_in shape.now).follows ≡ false) × (length kept.old ≡ 64) }
    ensures totals_after { (k : Rest)
        → InFields (lent_link (tree_in shape.now) size k.active k.place balance.old residual.old
        k.start held.now k.lengths k.tags k.marks k.totals)
        → lent_link (tree_in shape.now) size result 1 balance.new residual.new k.start held.now
        k.lengths k.tags k.marks k.totals
        ≡ opened_link (lent_link (tree_in shape.now) size k.active k.place balance.old residual.old
        k.start held.now k.lengths k.tags k.marks k.totals) }
    ensures kept_len { length kept.new ≡ 64 }
{
    let active = steps::round_active(shape, 0, held);
    steps::refresh(shape, active, kept);
    steps::open_round(shape, active, kept, size, balance, residual);
    active
}

// Rounds are opened one over the other, and nothing is sent.
fn open_times(link: Link, times: usize) -> Link
    requires { SoundLink link × (link.tree.follows ≡ false) }
    ensures { result ≡ opened_times times link }
{
    let tree = link.tree;
    let shape = shape::shape_of(tree);
    let mut kept = [0u32; Link::CLASSES];
    let size = link.round.size;
    let held = link.held;
    let before = link.round.accounts;
    let mut balance = state::lent_accounts::balances(before);
    let mut residual = state::lent_accounts::residuals(before);
    let mut active = link.round.active;
    let mut place = link.round.place;
    for _n in 0..times {
        active = open_next(&shape, &mut kept, size, &held, &mut balance, &mut residual);
        place = 1;
    }
    let accounts = state::lent_accounts::zipped(&balance, &residual);
    let round = Round {
        size,
        active,
        place,
        accounts,
    };
    let mut after = link;
    after.round = round;
    after
}

// What is left with the root then.
fn root_left(link: Link, times: usize) -> u64
    requires { SoundLink link × (link.tree.follows ≡ false) }
    ensures { result ≡ root_left link times }
{
    let after = open_times(backlogged(link), times);
    let round = after.round;
    let root = round.accounts[0];
    root.balance.0
}

// The same on a plan's fresh link, from the plan's bytes; 0 where the plan is refused, or is one of rule 2.
#[unsafe(no_mangle)]
pub extern "C" fn speed_openings(input: &[u8], times: usize) -> u64
    ensures { result ≡ left_after (begin_of input.now) times }
{
    let begun = run::begin(input);
    let link = begun.link;
    let tree = link.tree;
    if !begun.more || tree.follows {
        return 0;
    }
    root_left(link, times)
}
