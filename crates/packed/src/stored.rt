// A value stored into one number of a tree, whatever that does to the plan rules.
ghost use Rattle.std.specs.Prelude.{◌≡◌, ◌%◌, ◌<◌};
ghost use Rattle.packed.specs.Stored.{stored, stored_at};

use tree::Tree;
use units::Weight;

// A value cut to the width of its field.
pub fn cut_8(value: u64) -> u8
    ensures { result ≡ value % 256 }
{
    (value % 256) as u8
}

pub fn cut_16(value: u64) -> u16
    ensures { result ≡ value % 65_536 }
{
    (value % 65_536) as u16
}

pub fn cut_32(value: u64) -> u32
    ensures { result ≡ value % 4_294_967_296 }
{
    (value % 4_294_967_296) as u32
}

// Fields 2 to 4, at a class number: its parent, weight or longest packet.
fn stored_at(mut tree: Tree, field: u64, i: usize, value: u64) -> Tree
    requires { i < 64 }
    ensures { result ≡ stored_at tree field i value }
{
    match field {
        2 => tree.parent[i] = cut_8(value),
        3 => tree.weight[i] = Weight(cut_32(value)),
        _ => tree.longest[i] = cut_16(value),
    }
    tree
}

// Fields 0 to 4: the count of classes or the leaves of the tree, or at a class number its parent, weight or longest packet. Field 14: the
// rule of the round size, 2 or any other value for rule 1.
pub fn tree_number(mut tree: Tree, field: u64, i: usize, value: u64) -> Tree
    ensures { result ≡ stored tree field i value }
{
    match field {
        0 => tree.count = value as usize,
        1 => tree.leaves = value,
        14 => tree.follows = value == 2,
        _ if i < Tree::CLASSES => tree = stored_at(tree, field, i, value),
        _ => {}
    }
    tree
}
