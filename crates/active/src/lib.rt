// Who is active in a round that opens, and the weight sums: one pass from the highest class down each, unless they are known. The tree is
// lent as its numbers (`shape`). Named for rules/specs/Active and specs/Known.
// Serves demand 2.
#![tactic(auto)]

ghost use Rattle.std.specs.Prelude.{◌≡◌, true, cond, ◌&&◌, ℕ, ◌+◌, ◌^◌, ◌<◌, leb, length, get_or};
ghost use Rattle.sets.specs.Set.{has};
ghost use Rattle.rules.specs.Steps.{holds_some};
ghost use Rattle.rules.specs.Active.{upward, weight_sums};
ghost use Rattle.tree.specs.Class.{is_leaf};
ghost use Rattle.tree.specs.Rules.{PlanRules};
ghost use Rattle.shape.specs.Shape.{tree_in};
ghost use Rattle.active.specs.Known.{Raised, Summed};
ghost use Rattle.rules.specs.Sizes.{active_size};
ghost use Rattle.units.specs.Cost.{cost_of};

use tree::Tree;
use units::{Bytes, Weight};

// The leaves that hold a packet.
fn waiting_leaves(leaves: u64, held: &[u8; 64]) -> u64
    ensures { (i : ℕ) → i < 64 → has result i ≡ (has leaves i && leb 1 (get_or held.now i 0)) }
{
    let mut waiting: u64 = 0;
    for (i, &many) in held.iter().enumerate() {
        waiting = sets::with_if(waiting, i, 1 <= many);
    }
    sets::both(waiting, leaves)
}

// These leaves, and every class above one.
fn above(shape: &[u64; 195], waiting: u64) -> u64
    requires { PlanRules (tree_in shape.now) × ((i : ℕ) → i < 64 → has waiting i ≡ true → is_leaf (tree_in shape.now) i ≡ true) }
    ensures { result ≡ upward (tree_in shape.now) (has waiting) }
{
    let mut active: u64 = waiting;
    for i in (1..=shape::count(shape)).rev() {
        let p = shape::parent(shape, i);
        active = sets::with_if(active, p, sets::has(active, i));
    }
    active
}

// The active classes of a round: the leaves that hold a packet, and every class above one. Those that are known, where they have the
// same leaves.
pub fn round_active(shape: &[u64; 195], known: u64, held: &[u8; 64]) -> u64
    requires { PlanRules (tree_in shape.now) × Raised (tree_in shape.now) known }
    ensures { result ≡ upward (tree_in shape.now) (holds_some (tree_in shape.now) held.now) }
{
    let leaves = shape::leaves(shape);
    let waiting = waiting_leaves(leaves, held);
    if waiting == sets::both(known, leaves) {
        return known;
    }
    above(shape, waiting)
}

// A weight sum, and with it the weight of a class where that class is active.
fn with_active(sum: Weight, weight: Weight, on: bool) -> Weight
    requires { sum.0 + weight.0 < 2 ^ 32 }
    ensures { result.0 ≡ sum.0 + cond on weight.0 0 }
{
    if on { sum.plus(weight) } else { sum }
}

// The weight sums of all class numbers: one pass from the highest class down, each active class adding itself to its parent (R123).
pub fn weight_sums(shape: &[u64; 195], active: u64) -> [Weight; Tree::CLASSES]
    requires { PlanRules (tree_in shape.now) }
    ensures { result ≡ weight_sums (tree_in shape.now) active }
{
    let none = Weight(0);
    let mut sums = [none; Tree::CLASSES];
    for i in (1..=shape::count(shape)).rev() {
        let p = shape::parent(shape, i);
        let w = shape::weight(shape, i);
        let s = sums[p];
        let on = sets::has(active, i);
        sums[p] = with_active(s, w, on);
    }
    sums
}

// The kept sums become those of an active set, as bare numbers.
pub fn refresh(shape: &[u64; 195], active: u64, kept: &mut [u32; 64])
    requires { PlanRules (tree_in shape.now) × (length kept.old ≡ 64) }
    ensures { Summed (tree_in shape.now) active kept.new }
{
    let sums = weight_sums(shape, active);
    for (i, sum) in sums.iter().enumerate() {
        kept[i] = sum.0;
    }
}

// What the longest packet of a class costs, where it is an active leaf.
fn active_longest(on: bool, leaf: bool, longest: u16) -> Bytes
    ensures { result.0 ≡ cond on (cond leaf (cost_of longest) 0) 0 }
{
    if on && leaf {
        return units::cost(longest);
    }
    Bytes(0)
}

// Rule 2's size: the active classes' weights plus what the active leaves' longest packets cost.
pub fn active_size(shape: &[u64; 195], active: u64) -> Bytes
    requires { PlanRules (tree_in shape.now) }
    ensures { result.0 ≡ active_size (tree_in shape.now) active }
{
    let leaves = shape::leaves(shape);
    let mut weights = Weight(0);
    let mut packets = Bytes(0);
    for i in 1..=shape::count(shape) {
        let w = shape::weight(shape, i);
        let counts = sets::has(active, i);
        weights = with_active(weights, w, counts);
        packets = packets.plus(active_longest(
            counts,
            sets::has(leaves, i),
            shape::longest(shape, i),
        ));
    }
    units::size(weights, packets)
}
