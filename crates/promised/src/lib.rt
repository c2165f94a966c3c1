// What a plan promises of a packet's wait (R237 to R241): the bound of demand 3 as a number, for any tree, any class number and any D; and
// of a leaf the two that a planner asks for. Entries for callers outside: they ask nothing (R196). Serves demands 1 and 3.
#![tactic(auto)]

ghost use Rattle.checks.specs.Check.{refusal_at};
ghost use Rattle.std.specs.Prelude.{true, ◌≡◌, ◌*◌, ◌≤◌, ◌<◌, Ok, Err};
ghost use Rattle.units.specs.Cost.{cost_of, most_cost};
ghost use Rattle.tree.specs.Class.{longest_of, is_leaf};
ghost use Rattle.tree.specs.Rules.{PlanRules};
ghost use Rattle.tree.specs.Size.{round_size, most_size};
ghost use Rattle.wait.specs.Wait.{over_rounded_up, bound};
ghost use Rattle.promised.specs.Promise.{most_held, promising, promised_by, Promises, PromisesLeaf};

use checks::{Refusal, Refused, Verdict};
use state::Link;
use tree::Tree;
use units::{Bytes, Weight};

// What is promised: a verdict, and how many bytes the whole link sends at most until the packet has gone.
// R163: in an answer that refuses every further number is 0; so they stand beside the verdict, and not in a Result.
#[derive(Clone, Copy)]
pub struct Promised {
    pub verdict: Verdict,
    pub bytes: Bytes,
}

// Of a leaf: what is promised to its longest packet alone in its queue, and to the last of 32 such packets.
#[derive(Drop)]
pub struct LeafWaits {
    pub alone: Promised,
    pub full: Promised,
}

// D over w, rounded up.
fn over_rounded_up(d: Bytes, w: Weight) -> u64
    requires { (d.0 ≤ 32 * most_cost) × (1 ≤ w.0) }
    ensures { result ≡ over_rounded_up d.0 w.0 }
{
    d.0.div_ceil(u64::from(w.0))
}

// The bound.
fn bound_of(d: Bytes, w: Weight, q: Bytes) -> u64
    requires { (d.0 ≤ 32 * most_cost) × (1 ≤ w.0) × (w.0 ≤ 1_000_000) × (q.0 ≤ most_size) }
    ensures { result ≡ bound d.0 w.0 q.0 }
{
    (over_rounded_up(d, w) + 1) * q.0
}

// A queue's 32 places full of packets of a length.
fn full_of(length: u16) -> Bytes
    ensures { result.0 ≡ 32 * cost_of length }
{
    Bytes(Link::PLACES as u64 * units::cost(length).0)
}

// The longest packet of a class; 0 of a number that no class has. An `if`: `get(class).copied().unwrap_or(0)` gives 0 of every class where a
// pointer has 32 bits, as on the planner's page.
fn longest(tree: Tree, class: usize) -> u16
    ensures { result ≡ longest_of tree class }
{
    if Tree::CLASSES <= class {
        return 0;
    }
    tree.longest[class]
}

// A refusal promises nothing.
fn refuse(refused: Refused) -> Promised
    ensures { result ≡ promising (Err refused) 0 }
{
    let verdict = Err(refused);
    let bytes = Bytes(0);
    Promised { verdict, bytes }
}

// A leaf of a plan with this round size, and a D that its places can hold.
fn bounded(tree: Tree, class: usize, d: Bytes, q: Bytes) -> Promised
    requires { PlanRules tree × (is_leaf tree class ≡ true) × (d.0 ≤ most_held tree class) × (q.0 ≡ round_size tree) × (class < 64) }
    ensures { result ≡ promised_by (Ok tt) tree class d.0 }
{
    let w = tree.weight[class];
    let verdict = Ok(());
    let bytes = Bytes(bound_of(d, w, q));
    Promised { verdict, bytes }
}

// What is promised of a packet's wait in a class of a tree, any tree and any number, with D bytes in its queue as it is accepted.
pub fn longest_wait(tree: Tree, class: usize, d: Bytes) -> Promised
    ensures { Promises tree class d.0 result }
{
    let Some(q) = shape::plan_size(tree) else {
        return refuse(Refused(Refusal::NotSound, 0));
    };
    if !sets::holds(tree.leaves, class) {
        return refuse(Refused(Refusal::NoLeaf, class));
    }
    if full_of(longest(tree, class)).0 < d.0 {
        return refuse(Refused(Refusal::Full, class));
    }
    bounded(tree, class, d, q)
}

// What is promised to the longest packet of a leaf: alone in its queue, and as the last of 32 such packets.
pub fn leaf_waits(tree: Tree, class: usize) -> LeafWaits
    ensures { PromisesLeaf tree class result }
{
    let length = longest(tree, class);
    let alone = longest_wait(tree, class, units::cost(length));
    let full = longest_wait(tree, class, full_of(length));
    LeafWaits { alone, full }
}
