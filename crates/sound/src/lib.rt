// Whether a link record, any record of numbers whatever, is sound (R101 to R115), decided with no overflow and no fault.
// Serves demand 1: refusal 11 rests on it.
#![tactic(auto)]

mod queue;

ghost use Rattle.std.specs.Prelude.{◌≡◌, ℕ, ◌<◌, ◌≤◌, true, List, length};
ghost use Rattle.tree.specs.Size.{most_size};
ghost use Rattle.checks.specs.Check.{Exactly};
ghost use Rattle.tree.specs.Rules.{PlanRules};
ghost use Rattle.shape.specs.Shape.{tree_in, Families};
ghost use Rattle.state.specs.Account.{zip_accounts};
ghost use Rattle.state.specs.State.{link_of, round_of};
ghost use Rattle.sound.specs.Sound.{SoundLink};
ghost use Rattle.sound.specs.Steps.{LeafRight, OtherRight, ViewRight, ClassRight};
ghost use Rattle.sound.specs.Steps.{link_in, ClassesRight, SizeWithin};

use queue::queue_right;
use state::lent_accounts::{account_of, balances, residuals};
use state::queue::slot;
use state::{Account, Link, Round, Totals};
use tree::Tree;
use units::Bytes;

// The numbers of one class that the clauses of soundness speak of: child says whether a child of it is active; packets and bytes are its
// totals, waiting and cost what its children's add to.
#[derive(Clone, Copy)]
pub struct View {
    pub class: usize,
    pub place: usize,
    pub size: Bytes,
    pub leaf: bool,
    pub active: bool,
    pub child: bool,
    pub start: u8,
    pub held: u8,
    pub first: u16,
    pub account: Account,
    pub packets: u64,
    pub bytes: u64,
    pub waiting: u64,
    pub cost: u64,
}

// The clauses of soundness at a leaf: it holds 0 to 32 packets, as many as its total says, and one where it is active; R = 0, and B = 0
// where it is not active; and an active one that is numbered below the place has a balance smaller than its first packet.
fn leaf_right(v: View) -> bool
    ensures { Exactly result (LeafRight v) }
{
    usize::from(v.held) <= Link::PLACES
        && v.packets == u64::from(v.held)
        && v.account.residual.0 == 0
        && if v.active {
            1 <= v.held && (v.place <= v.class || v.account.balance < units::cost(v.first))
        } else {
            v.account.balance.0 == 0
        }
}

// The clauses at any other number: it holds no packet, its totals are its children's together, it is active exactly when a child is, and
// inactive it has B = R = 0, but for the root.
fn other_right(v: View) -> bool
    ensures { Exactly result (OtherRight v) }
{
    v.held == 0
        && v.packets == v.waiting
        && v.bytes == v.cost
        && v.active == v.child
        && (v.active || v.class == 0 || v.account == Account::none())
}

// The clauses of soundness at one class number, but for the lengths of its packets.
fn view_is_right(v: View) -> bool
    ensures { Exactly result (ViewRight v) }
{
    v.start <= 31
        && v.account.balance <= v.size
        && v.account.residual <= v.size
        && if v.leaf {
            leaf_right(v)
        } else {
            other_right(v)
        }
}

// A class right, in its numbers and its packets.
fn class_right(v: View, lengths: &[u16; 2048], longest: u16) -> bool
    requires { (v.class < 64) × (longest ≤ 9_216) }
    ensures { Exactly result (ClassRight v lengths.now longest) }
{
    view_is_right(v) && (!v.leaf || queue_right(v, lengths, longest))
}

// Every class right, from the highest down, and all B and R add to the size. Each class adds its totals to what its parent's are to be.
fn classes_right(
    shape: &[u64; 195],
    size: Bytes,
    active: u64,
    place: usize,
    balance: &[u64; 64],
    residual: &[u64; 64],
    start: &[u8; 64],
    held: &[u8; 64],
    lengths: &[u16; 2048],
    packets: &[u64; 64],
    bytes: &[u64; 64],
    children: &[u64; 64],
) -> bool
    requires { PlanRules (tree_in shape.now) × Families (tree_in shape.now) children.now
        × (length (zip_accounts balance.now residual.now) ≡ 64) × (size.0 ≤ most_size) }
    ensures { (tags marks : List ℕ) (charged : ℕ)
        → Exactly result (ClassesRight (link_in shape.now size active place balance.now residual.now
        start.now held.now lengths.now tags marks packets.now bytes.now
        charged)) }
{
    let leaves = shape::leaves(shape);
    let mut waiting = [0u64; Link::CLASSES];
    let mut cost = [0u64; Link::CLASSES];
    let mut sum = Bytes(0);
    for i in (0..Link::CLASSES).rev() {
        let account = account_of(i, balance, residual);
        let v = View {
            class: i,
            place,
            size,
            leaf: sets::has(leaves, i),
            active: sets::has(active, i),
            child: sets::both(children[i], active) != 0,
            start: start[i],
            held: held[i],
            first: lengths[slot(i, usize::from(start[i]) % Link::PLACES)],
            account,
            packets: packets[i],
            bytes: bytes[i],
            waiting: waiting[i],
            cost: cost[i],
        };
        if !class_right(v, lengths, shape::longest(shape, i)) {
            return false;
        }
        sum = sum.plus(v.account.funds());
        let up = shape::parent(shape, i);
        waiting[up] += v.packets;
        cost[up] += v.bytes;
    }
    sum.0 == size.0
}

// Whether a size may be in force: never above the whole tree's, and under rule 1 the whole tree's.
fn size_right(follows: bool, whole: Bytes, size: Bytes) -> bool
    ensures { Exactly result (SizeWithin follows whole.0 size.0) }
{
    if follows {
        size.0 <= whole.0
    } else {
        size.0 == whole.0
    }
}

// Whether the link that these lent numbers make up is sound; its tags, its marks and its running total have no say. Where it is, the
// sets of children of its class numbers are given too.
pub fn is_sound_at(
    shape: &[u64; 195],
    size: Bytes,
    active: u64,
    place: usize,
    balance: &[u64; 64],
    residual: &[u64; 64],
    start: &[u8; 64],
    held: &[u8; 64],
    lengths: &[u16; 2048],
    packets: &[u64; 64],
    bytes: &[u64; 64],
    children: &mut [u64; 64],
) -> bool
    ensures by_index { (tags marks : List ℕ) (charged : ℕ)
        → Exactly result (SoundLink (link_of (tree_in shape.now) lengths.now tags marks start.now
        held.now (record { packets = packets.now; bytes = bytes.now; charged = charged })
        (round_of size.0 active place (zip_accounts balance.now residual.now)))) }
    ensures families { result ≡ true → Families (tree_in shape.now) children.new }
{
    let Some(whole) = shape::plan_size_at(shape, children) else {
        return false;
    };
    if !size_right(shape::follows(shape), whole, size) {
        return false;
    }
    (1..=Link::CLASSES).contains(&place)
        && classes_right(
            shape, size, active, place, balance, residual, start, held, lengths, packets, bytes,
            children,
        )
}

// Whether the link that these fields make up is sound; its tags and its marks have no say.
pub fn is_sound_of(
    tree: Tree,
    start: [u8; Link::CLASSES],
    held: [u8; Link::CLASSES],
    totals: Totals,
    round: Round,
    lengths: &[u16; 2048],
) -> bool
    ensures { (tags marks : List ℕ)
        → Exactly result (SoundLink (link_of tree lengths.now tags marks start held totals round)) }
{
    let shape = shape::shape_of(tree);
    let size = round.size;
    let accounts = round.accounts;
    let balance = balances(accounts);
    let residual = residuals(accounts);
    let packets = totals.packets;
    let bytes = totals.bytes;
    let mut children = [0u64; 64];
    is_sound_at(
        &shape,
        size,
        round.active,
        round.place,
        &balance,
        &residual,
        &start,
        &held,
        lengths,
        &packets,
        &bytes,
        &mut children,
    )
}

// Whether a link is sound.
pub fn is_sound(link: Link) -> bool
    ensures { Exactly result (SoundLink link) }
{
    let tree = link.tree;
    let lengths = link.lengths;
    let start = link.start;
    let held = link.held;
    let totals = link.totals;
    let round = link.round;
    is_sound_of(tree, start, held, totals, round, &lengths)
}
