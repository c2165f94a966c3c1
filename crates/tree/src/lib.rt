// The class tree (R21 to R37) as a value. What is decided of it stands in the modules: the rules of a class record, and those after the
// end record; the plan rules and the round size of any tree whatever are decided over its shape. Serves demands 1 and 3.
#![tactic(auto)]

mod after_end;
mod class_rules;

ghost use Rattle.std.specs.Prelude.{◌≡◌, ◌<◌};
ghost use Rattle.tree.specs.Class.{no_tree, added};

pub use after_end::closing;
pub use class_rules::{bad_longest, bad_parent, bad_weight, class_fault};
use units::Weight;

// Classes 1 to count, by number; class 0 is the root. What a plan does not set is 0.
#[derive(Clone, Copy, Debug, PartialEq, Eq)]
pub struct Tree {
    pub count: usize,
    pub leaves: u64,
    pub parent: [u8; Tree::CLASSES],
    pub weight: [Weight; Tree::CLASSES],
    pub longest: [u16; Tree::CLASSES],
    // Rule 2, the round size follows who is active; else rule 1, the whole tree's size.
    pub follows: bool,
}

// One class record of a plan; an inner class has no longest packet.
#[derive(Debug, PartialEq, Eq, Drop)]
pub struct Class {
    pub parent: u8,
    pub weight: Weight,
    pub longest: u16,
    pub leaf: bool,
}

impl Tree {
    // Class numbers, the root's among them.
    pub const CLASSES: usize = sets::CLASSES;
    // Classes of a plan at most: all but the root.
    pub const MOST: usize = Tree::CLASSES - 1;

    // The tree without classes.
    pub fn none() -> Tree
        ensures { result ≡ no_tree }
    {
        let parent = [0u8; Tree::CLASSES];
        let none = Weight(0);
        let weight = [none; Tree::CLASSES];
        let longest = [0u16; Tree::CLASSES];
        Tree {
            count: 0,
            leaves: 0,
            parent,
            weight,
            longest,
            follows: false,
        }
    }

    // The tree with one class more.
    pub fn added(mut self, class: Class) -> Tree
        requires { self.count < 63 }
        ensures { result ≡ added self class }
    {
        let i = self.count + 1;
        let leaf = class.leaf;
        let weight = class.weight;
        let leaves = sets::with_if(self.leaves, i, leaf);
        self.count = i;
        self.leaves = leaves;
        self.parent[i] = class.parent;
        self.weight[i] = weight;
        self.longest[i] = class.longest;
        self
    }
}
