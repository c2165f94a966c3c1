// A shape's tree as a value again, for what takes a tree by value: of a shape that obeys the plan rules, so each number fits its field.
// Serves demand 2.
ghost use Rattle.std.specs.Prelude.{◌≡◌};
ghost use Rattle.tree.specs.Rules.{PlanRules};
ghost use Rattle.shape.specs.Shape.{tree_in};

use crate::{COUNT, FOLLOWS, LEAVES, LONGEST, WEIGHTS};
use tree::Tree;
use units::Weight;

// The tree of a shape.
pub fn tree_of(shape: &[u64; 195]) -> Tree
    requires { PlanRules (tree_in shape.now) }
    ensures { result ≡ tree_in shape.now }
{
    let none = Weight(0);
    let mut parent = [0u8; Tree::CLASSES];
    let mut weight = [none; Tree::CLASSES];
    let mut longest = [0u16; Tree::CLASSES];
    for i in 0..Tree::CLASSES {
        parent[i] = shape[i] as u8;
        weight[i] = Weight(shape[WEIGHTS + i] as u32);
        longest[i] = shape[LONGEST + i] as u16;
    }
    Tree {
        count: shape[COUNT] as usize,
        leaves: shape[LEAVES],
        parent,
        weight,
        longest,
        follows: shape[FOLLOWS] == 1,
    }
}
