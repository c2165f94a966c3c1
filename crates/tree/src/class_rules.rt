// The rules of one class record: numbers 4, 5 and 6, each by itself and in this order. Serves demand 1.
ghost use Rattle.std.specs.Prelude.{◌≡◌, true, false, ℕ, ◌≤◌, ◌<◌};
ghost use Rattle.checks.specs.Check.{first_broken};
ghost use Rattle.tree.specs.declared.Tree.{Tree};
ghost use Rattle.tree.specs.Class.{parent_of, weight_of, longest_of, is_leaf};
ghost use Rattle.tree.specs.Rules.{bad_parent, bad_weight, bad_longest, class_checks};

use crate::Tree;
use checks::{Refusal, Refused, Verdict};

// Number 4: parent not lower than the class, or a leaf.
pub fn bad_parent(leaves: u64, parent: usize, i: usize) -> bool
    requires { i < 64 }
    ensures { (t : Tree) → t.leaves ≡ leaves → parent_of t i ≡ parent → result ≡ bad_parent t i }
{
    i <= parent || sets::has(leaves, parent)
}

// Number 5: weight outside its range.
pub fn bad_weight(weight: u64) -> bool
    ensures { (t : Tree) (i : ℕ) → weight_of t i ≡ weight → result ≡ bad_weight t i }
{
    weight < 1 || 1_000_000 < weight
}

// Number 6: longest outside its range.
pub fn bad_longest(leaf: bool, longest: u64) -> bool
    ensures { ((t : Tree) (i : ℕ) → is_leaf t i ≡ leaf → longest_of t i ≡ longest → result ≡ bad_longest t i)
        × (result ≡ false → leaf ≡ true → longest ≤ 9_216) }
{
    leaf && (longest < 1 || 9_216 < longest)
}

// Numbers 4, 5 and 6 of class i, in this order, at its record's place.
pub fn class_fault(tree: Tree, i: usize, place: usize) -> Verdict
    requires { i < 64 }
    ensures { result ≡ first_broken (class_checks tree i place) }
{
    let w = tree.weight[i];
    let parent = bad_parent(tree.leaves, usize::from(tree.parent[i]), i);
    let weight = bad_weight(u64::from(w.0));
    let longest = bad_longest(sets::has(tree.leaves, i), u64::from(tree.longest[i]));
    if parent {
        return Err(Refused(Refusal::BadParent, place));
    }
    if weight {
        return Err(Refused(Refusal::BadWeight, place));
    }
    if longest {
        return Err(Refused(Refusal::BadLongest, place));
    }
    Ok(())
}
