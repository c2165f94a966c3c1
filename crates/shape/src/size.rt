// The plan rules decided for the numbers of any shape whatever, and with them the round size; so of any tree, over its shape. Named for
// specs/Size of the tree.
// Serves demand 1 (numbers 3 to 9) and demand 3 (Q).
ghost use Rattle.std.specs.Prelude.{◌≡◌, ℕ, ◌^◌, ◌≤◌, ◌<◌, is_some, IfSome};
ghost use Rattle.checks.specs.Check.{Exactly};
ghost use Rattle.tree.specs.declared.Tree.{Tree};
ghost use Rattle.tree.specs.Class.{parent_of, weight_of, longest_of, is_leaf};
ghost use Rattle.tree.specs.Rules.{PlanRules};
ghost use Rattle.tree.specs.Size.{round_size, all_weights, all_longest, longest_cost};
ghost use Rattle.shape.specs.Steps.{Sizes, Numbers, NumberUnset, RestUnset, InnerRight, ClassObeys, ClassesObey};
ghost use Rattle.shape.specs.Shape.{tree_in, Families};

use crate::{COUNT, LEAVES, LONGEST, WEIGHTS};
use tree::{Tree, bad_longest, bad_parent, bad_weight};
use units::{Bytes, Weight};

// What a walk over right classes gives: all weights, and what all leaves' longest packets cost.
#[derive(Drop)]
pub struct Walked {
    pub weights: u64,
    pub packets: u64,
}

// Whether nothing is set of a class number.
fn number_unset(leaf: bool, parent: u64, weight: u64, longest: u64) -> bool
    ensures { (t : Tree) (i : ℕ) → is_leaf t i ≡ leaf → parent_of t i ≡ parent → weight_of t i ≡ weight → longest_of t i ≡ longest
        → Exactly result (NumberUnset t i) }
{
    !leaf && parent == 0 && weight == 0 && longest == 0
}

// The same of a class number of a shape.
fn unset_at(shape: &[u64; 195], i: usize) -> bool
    requires { i < 64 }
    ensures { Exactly result (NumberUnset (tree_in shape.now) i) }
{
    let leaf = sets::has(shape[LEAVES], i);
    number_unset(leaf, shape[i], shape[WEIGHTS + i], shape[LONGEST + i])
}

// Whether nothing is set of the root, nor of any number past the last class.
fn rest_unset(shape: &[u64; 195]) -> bool
    requires { (tree_in shape.now).count ≤ 63 }
    ensures { Exactly result (RestUnset (tree_in shape.now)) }
{
    if !unset_at(shape, 0) {
        return false;
    }
    for i in crate::count(shape) + 1..Tree::CLASSES {
        if !unset_at(shape, i) {
            return false;
        }
    }
    true
}

// Whether an inner class has no longest packet, and children that weigh at least 1 and at most what it weighs.
fn inner_right(weight: u64, longest: u64, children: u64) -> bool
    ensures { Exactly result (InnerRight weight longest children) }
{
    longest == 0 && 1 <= children && children <= weight
}

// What the longest packet of a class costs, nothing where it is inner; of a class that is right: numbers 4, 5 and 6, and where it is inner
// what its children weigh, which all come after it.
fn class_right(
    leaves: u64,
    i: usize,
    parent: u64,
    weight: u64,
    longest: u64,
    children: u64,
) -> Option<u64>
    requires { i < 64 }
    ensures { (t : Tree) → Numbers t i leaves parent weight longest
        → Exactly (is_some result) (ClassObeys t i children) × IfSome result (λ cost. cost ≡ longest_cost t i) }
{
    let leaf = sets::has(leaves, i);
    if bad_parent(leaves, parent as usize, i) || bad_weight(weight) || bad_longest(leaf, longest) {
        return None;
    }
    if leaf {
        return Some(units::cost(longest as u16).0);
    }
    inner_right(weight, longest, children).then_some(0)
}

// The classes from the highest down, each adding its weight to its parent's sum and itself to its parent's children: where all are right,
// what goes into the round size.
fn walk(shape: &[u64; 195], children: &mut [u64; 64]) -> Option<Walked>
    requires { (tree_in shape.now).count ≤ 63 }
    ensures { Exactly (is_some result) (ClassesObey (tree_in shape.now))
        × IfSome result (λ w. (w.weights ≡ all_weights (tree_in shape.now)) × (w.packets ≡ all_longest (tree_in shape.now))
        × Families (tree_in shape.now) children.new)
        × ((tree_in shape.now).leaves < 2 ^ 64) }
{
    *children = [0u64; 64];
    let leaves = crate::leaves(shape);
    let mut sums = [0u64; Tree::CLASSES];
    let mut weights: u64 = 0;
    let mut packets: u64 = 0;
    for i in (1..=crate::count(shape)).rev() {
        let w = shape[WEIGHTS + i];
        let p = crate::parent(shape, i);
        let cost = class_right(leaves, i, shape[i], w, shape[LONGEST + i], sums[i])?;
        sums[p] += w;
        children[p] = sets::with(children[p], i);
        weights += w;
        packets += cost;
    }
    Some(Walked { weights, packets })
}

// The round size of a shape, any numbers whatever, where it obeys the plan rules, and then the sets of children of its class numbers too.
pub fn plan_size_at(shape: &[u64; 195], children: &mut [u64; 64]) -> Option<Bytes>
    ensures { Sizes (tree_in shape.now) result × IfSome result (λ size. Families (tree_in shape.now) children.new) }
{
    let last = crate::count(shape);
    if Tree::MOST < last || last == 0 || !rest_unset(shape) {
        return None;
    }
    let walked = walk(shape, children)?;
    let weights = Weight(walked.weights as u32);
    Some(units::size(weights, Bytes(walked.packets)))
}

// The round size of a tree, any tree whatever, where it obeys the plan rules.
pub fn plan_size(tree: Tree) -> Option<Bytes>
    ensures { Sizes tree result }
{
    let shape = crate::shape_of(tree);
    let mut children = [0u64; 64];
    plan_size_at(&shape, &mut children)
}

// Whether a tree, any tree whatever, obeys the plan rules.
pub fn is_plan(tree: Tree) -> bool
    ensures { Exactly result (PlanRules tree) }
{
    plan_size(tree).is_some()
}

// The round size Q.
pub fn round_size(tree: Tree) -> Bytes
    requires { PlanRules tree }
    ensures { result.0 ≡ round_size tree }
{
    plan_size(tree).unwrap()
}
