// Mending a plan whose shares don't add up (R267 to R274): any bytes in; the tree with each inner weight the least that the rules allow
// and the list of what changed, or a refusal. The entry takes any bytes (R196).
// One pass from the highest class down: each class adds its mended weight to its parent's sum, which is whole when the parent's turn comes.
#![tactic(auto)]

ghost use Rattle.std.specs.Prelude.{◌≡◌, cond, ◌&&◌, not, [], ◌≤◌, ◌<◌, max, Ok, Err};
ghost use Rattle.checks.specs.Check.{first_broken, class_by_class, refusal_at};
ghost use Rattle.tree.specs.Class.{no_tree, has_child};
ghost use Rattle.mended.specs.Weights.{mended_weights};
ghost use Rattle.mended.specs.Answer.{changes_to, listed, downward, child_checks, need_checks, mend_checks, answer, mend_of};
ghost use Rattle.mended.specs.Steps.{ReadTree, noted};

use checks::{Refusal, Refused, Verdict};
use plan::reader;
use tree::Tree;
use units::Weight;

// A changed class with its old and its new weight.
#[derive(Clone, Copy)]
pub struct Change {
    pub class: usize,
    pub old: Weight,
    pub new: Weight,
}

// The changes in class order: so many, and 0 in the other entries.
#[derive(Clone, Copy)]
pub struct Changes {
    pub count: usize,
    pub at: [Change; Tree::CLASSES],
}

// The answer: a verdict, the bytes used, the mended tree and what changed.
// R163: in an answer that refuses every further number is 0; so they stand beside the verdict, and not in a Result.
#[derive(Drop)]
pub struct Mended {
    pub verdict: Verdict,
    pub used: usize,
    pub tree: Tree,
    pub changes: Changes,
}

// The mended weights, by class number; none to be read where the verdict is a refusal.
#[derive(Drop)]
struct NewWeights {
    verdict: Verdict,
    at: [Weight; Tree::CLASSES],
}

// Whether class p has a child.
fn has_child(tree: Tree, p: usize) -> bool
    requires { tree.count ≤ 63 }
    ensures { result ≡ has_child tree p }
{
    for i in 1..=tree.count {
        if usize::from(tree.parent[i]) == p {
            return true;
        }
    }
    false
}

// Whether a class is an inner one without a child.
fn is_childless(leaf: bool, child: bool) -> bool
    ensures { result ≡ (not leaf && not child) }
{
    !leaf && !child
}

// 8: the lowest inner class without a child.
fn child_fault(tree: Tree) -> Verdict
    requires { tree.count ≤ 63 }
    ensures { result ≡ first_broken (class_by_class (child_checks tree) tree.count) }
{
    for i in 1..=tree.count {
        let leaf = sets::has(tree.leaves, i);
        let child = has_child(tree, i);
        if is_childless(leaf, child) {
            return Err(Refused(Refusal::Childless, i));
        }
    }
    Ok(())
}

// The mended weight of a class whose children's are together so much.
fn mended_weight(leaf: bool, own: Weight, children: Weight) -> Weight
    ensures { result.0 ≡ cond leaf own.0 (max own.0 children.0) }
{
    if leaf {
        return own;
    }
    Weight(own.0.max(children.0))
}

// The mended weights from the highest class down, or 22 at the first that would need too much.
fn mend_weights(tree: Tree) -> NewWeights
    requires { ReadTree tree }
    ensures { (result.verdict ≡ first_broken (downward (need_checks tree) tree.count))
        × (result.verdict ≡ Ok tt → result.at ≡ mended_weights tree) }
{
    let none = Weight(0);
    let mut sums = [none; Tree::CLASSES];
    let mut at = tree.weight;
    for i in (1..=tree.count).rev() {
        let leaf = sets::has(tree.leaves, i);
        let w = mended_weight(leaf, at[i], sums[i]);
        if 1_000_000 < w.0 {
            let verdict = Err(Refused(Refusal::NeedsMore, i));
            return NewWeights { verdict, at };
        }
        at[i] = w;
        let p = usize::from(tree.parent[i]);
        sums[p] = sums[p].plus(w);
    }
    let verdict = Ok(());
    NewWeights { verdict, at }
}

// The changes with one more, where the weight of the class is another.
fn noted(mut changes: Changes, class: usize, old: Weight, new: Weight) -> Changes
    requires { changes.count < 64 }
    ensures { result ≡ noted changes class old new }
{
    if new.0 <= old.0 {
        return changes;
    }
    let k = changes.count;
    changes.at[k] = Change { class, old, new };
    changes.count = k + 1;
    changes
}

// No change.
fn no_changes() -> Changes
    ensures { result ≡ listed [] }
{
    let none = Weight(0);
    let nothing = Change {
        class: 0,
        old: none,
        new: none,
    };
    let at = [nothing; Tree::CLASSES];
    Changes { count: 0, at }
}

// What changed, class by class upward.
fn list_changes(tree: Tree, new: [Weight; Tree::CLASSES]) -> Changes
    requires { (tree.count ≤ 63) × (new ≡ mended_weights tree) }
    ensures { result ≡ listed (changes_to tree tree.count) }
{
    let mut changes = no_changes();
    for i in 1..=tree.count {
        changes = noted(changes, i, tree.weight[i], new[i]);
    }
    changes
}

// A refusal: 0 bytes used, the tree without classes and no change.
fn refuse(refused: Refused) -> Mended
    ensures { result ≡ answer (Err refused) no_tree 0 }
{
    let verdict = Err(refused);
    let tree = Tree::none();
    let changes = no_changes();
    Mended {
        verdict,
        used: 0,
        tree,
        changes,
    }
}

// A tree with its mended weights, and what changed.
fn with_weights(mut tree: Tree, used: usize, new: [Weight; Tree::CLASSES]) -> Mended
    requires { (tree.count ≤ 63) × (new ≡ mended_weights tree) }
    ensures { result ≡ answer (Ok tt) tree used }
{
    let verdict = Ok(());
    let changes = list_changes(tree, new);
    tree.weight = new;
    Mended {
        verdict,
        used,
        tree,
        changes,
    }
}

// 22, or the mended tree.
fn mend_shares(tree: Tree, used: usize) -> Mended
    requires { ReadTree tree }
    ensures { result ≡ answer (first_broken (downward (need_checks tree) tree.count)) tree used }
{
    let new = mend_weights(tree);
    let verdict = new.verdict;
    let at = new.at;
    match verdict {
        Ok(()) => with_weights(tree, used, at),
        Err(refused) => refuse(refused),
    }
}

// The tree that the records gave: 9, then 8, then 22, or the mended tree.
fn mend_tree(tree: Tree, used: usize) -> Mended
    requires { ReadTree tree }
    ensures { result ≡ answer (first_broken (mend_checks tree)) tree used }
{
    if tree.count == 0 {
        return refuse(Refused(Refusal::NoClass, 0));
    }
    let v = child_fault(tree);
    match v {
        Ok(()) => mend_shares(tree, used),
        Err(refused) => refuse(refused),
    }
}

// Mends the plan at the front of any bytes.
pub fn mend(input: &[u8]) -> Mended
    ensures { result ≡ mend_of input.now }
{
    let read = reader::read_records(input);
    let verdict = read.verdict;
    match verdict {
        Ok(()) => mend_tree(read.tree, read.used),
        Err(refused) => refuse(refused),
    }
}
