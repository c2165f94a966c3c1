// Trees whatever their numbers: shown class by class, changed in one number, and whether they obey the plan rules; they run, and are
// compared with the written-down answers.
ghost use Rattle.std.specs.Prelude.{◌<◌};

use packed::command::{number_8, number_16, number_64};
use packed::stored::tree_number;
use shown::{either, word};
use std::io;
use tree::Tree;

// One class of a tree.
fn class_line(rt: &impl Print, tree: Tree, i: usize) -> io::Result<()>
    requires { i < 64 }
{
    let kind = if sets::has(tree.leaves, i) {
        "leaf"
    } else {
        "inner"
    };
    let parent = tree.parent[i];
    let weight = tree.weight[i].0;
    let longest = tree.longest[i];
    println!(rt; "class {i}: {kind} parent {parent} weight {weight} longest {longest}")
}

// Each class of a tree.
pub(crate) fn class_lines(rt: &impl Print, tree: Tree) -> io::Result<()> {
    for i in 1..=tree.count.min(Tree::MOST) {
        class_line(rt, tree, i)?;
    }
    Ok(())
}

// Whether a tree obeys the plan rules.
pub(crate) fn rules(rt: &impl Print, name: &[u8], tree: Tree) -> io::Result<()> {
    word(rt, name)?;
    either(rt, shape::is_plan(tree), b": yes\n", b": no\n")
}

// A value stored into one number: field 1, index 2, value 8.
pub(crate) fn stored(tree: Tree, body: &[u8]) -> Tree {
    tree_number(
        tree,
        number_8(body, 0),
        number_16(body, 1) as usize,
        number_64(body, 3),
    )
}
