// After the end record: number 9, then class by class upward numbers 8 and 7. Serves demand 1.
ghost use Rattle.std.specs.Prelude.{◌≡◌, true, ◌||◌, ℕ, ◌≤◌, ◌<◌, eqb, get_or};
ghost use Rattle.checks.specs.Check.{first_broken};
ghost use Rattle.sets.specs.Set.{has};
ghost use Rattle.tree.specs.declared.Tree.{Tree};
ghost use Rattle.tree.specs.Class.{no_weight, weight_of, is_class, is_leaf, children_weight, has_child};
ghost use Rattle.tree.specs.Rules.{closing_of, closing_checks, Light};

use crate::Tree;
use checks::{Refusal, Refused, Verdict};
use units::Weight;

// What the children of each number weigh together, one pass from the highest class down: each class adds itself to its parent, which is any
// byte.
fn children_weights(tree: Tree) -> [Weight; 256]
    requires { Light tree }
    ensures { (p : ℕ) → p < 256 → (get_or result p no_weight).0 ≡ children_weight tree p }
{
    let none = Weight(0);
    let mut sums = [none; 256];
    for i in (1..=tree.count).rev() {
        let p = usize::from(tree.parent[i]);
        let w = tree.weight[i];
        let s = sums[p];
        sums[p] = s.plus(w);
    }
    sums
}

// The set with a parent put in; a byte that is no class number is left out.
fn with_parent(parents: u64, parent: u8) -> u64
    ensures { (p : ℕ) → p < 64 → has result p ≡ (has parents p || eqb parent p) }
{
    let p = usize::from(parent);
    if p < Tree::CLASSES {
        sets::with(parents, p)
    } else {
        parents
    }
}

// The class numbers that have a child, as a set.
fn parents(tree: Tree) -> u64
    requires { tree.count ≤ 63 }
    ensures { (p : ℕ) → p < 64 → has result p ≡ has_child tree p }
{
    let mut parents: u64 = 0;
    for child in 1..=tree.count {
        parents = with_parent(parents, tree.parent[child]);
    }
    parents
}

// Numbers 8 and 7 of class i, in this order.
fn closing_fault(leaf: bool, child: bool, weight: Weight, children: Weight, i: usize) -> Verdict
    ensures { (t : Tree) → is_class t i ≡ true → is_leaf t i ≡ leaf → has_child t i ≡ child → weight_of t i ≡ weight.0
        → children_weight t i ≡ children.0 → result ≡ first_broken (closing_of t i) }
{
    if leaf {
        return Ok(());
    }
    if !child {
        return Err(Refused(Refusal::Childless, i));
    }
    if weight.0 < children.0 {
        return Err(Refused(Refusal::TooHeavy, i));
    }
    Ok(())
}

// Number 9, then class by class upward numbers 8 and 7.
pub fn closing(tree: Tree) -> Verdict
    requires { Light tree }
    ensures { result ≡ first_broken (closing_checks tree) }
{
    let last = tree.count;
    if last == 0 {
        return Err(Refused(Refusal::NoClass, 0));
    }
    let sums = children_weights(tree);
    let parents = parents(tree);
    for i in 1..=last {
        let w = tree.weight[i];
        let sum = sums[i];
        let leaf = sets::has(tree.leaves, i);
        let child = sets::has(parents, i);
        closing_fault(leaf, child, w, sum, i)?;
    }
    Ok(())
}
