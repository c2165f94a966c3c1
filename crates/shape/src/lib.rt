// A tree as one array of numbers that is lent to the steps of a link: made once, and read by the names of the tree. Named for specs/Shape.
// Serves demand 2: what is read is the tree's.
#![tactic(auto)]

mod back;
mod size;

ghost use Rattle.std.specs.Prelude.{◌≡◌, ◌<◌};
ghost use Rattle.tree.specs.Class.{parent_of, weight_of, longest_of};
ghost use Rattle.tree.specs.Rules.{PlanRules};
ghost use Rattle.shape.specs.Shape.{tree_in, rule_number, Families};

pub use back::tree_of;
pub use size::{is_plan, plan_size, plan_size_at, round_size};
use tree::Tree;
use units::Weight;

// Numbers of a shape, and where the weights, the longest packets and the last three begin.
const WEIGHTS: usize = 64;

const LONGEST: usize = 128;

const COUNT: usize = 192;

const LEAVES: usize = 193;

const FOLLOWS: usize = 194;

// The parent of a class number.
pub fn parent(shape: &[u64; 195], class: usize) -> usize
    requires { class < 64 }
    ensures { result ≡ parent_of (tree_in shape.now) class }
{
    shape[class] as usize
}

// Its weight.
pub fn weight(shape: &[u64; 195], class: usize) -> Weight
    requires { PlanRules (tree_in shape.now) × (class < 64) }
    ensures { result.0 ≡ weight_of (tree_in shape.now) class }
{
    Weight(shape[WEIGHTS + class] as u32)
}

// Its longest packet.
pub fn longest(shape: &[u64; 195], class: usize) -> u16
    requires { PlanRules (tree_in shape.now) × (class < 64) }
    ensures { result ≡ longest_of (tree_in shape.now) class }
{
    shape[LONGEST + class] as u16
}

// How many classes there are.
pub fn count(shape: &[u64; 195]) -> usize
    ensures { result ≡ (tree_in shape.now).count }
{
    shape[COUNT] as usize
}

// The set of leaves.
pub fn leaves(shape: &[u64; 195]) -> u64
    ensures { result ≡ (tree_in shape.now).leaves }
{
    shape[LEAVES]
}

// Whether the size follows who is active.
pub fn follows(shape: &[u64; 195]) -> bool
    ensures { result ≡ (tree_in shape.now).follows }
{
    shape[FOLLOWS] == 1
}

// 1 for rule 2, 0 for rule 1.
fn rule(follows: bool) -> u64
    ensures { result ≡ rule_number follows }
{
    u64::from(follows)
}

// The shape of a tree, any tree whatever.
pub fn shape_of(tree: Tree) -> [u64; 195]
    ensures { tree_in result ≡ tree }
{
    let mut out = [0u64; 195];
    for i in 0..Tree::CLASSES {
        out[i] = u64::from(tree.parent[i]);
        out[WEIGHTS + i] = u64::from(tree.weight[i].0);
        out[LONGEST + i] = u64::from(tree.longest[i]);
    }
    out[COUNT] = tree.count as u64;
    out[LEAVES] = tree.leaves;
    out[FOLLOWS] = rule(tree.follows);
    out
}

// The sets of children of a shape's class numbers.
pub fn families(shape: &[u64; 195]) -> [u64; 64]
    requires { PlanRules (tree_in shape.now) }
    ensures { Families (tree_in shape.now) result }
{
    let mut out = [0u64; 64];
    for i in 1..=count(shape) {
        let p = parent(shape, i);
        out[p] = sets::with(out[p], i);
    }
    out
}
