// Reads a plan from standard input and prints its classes and its round size, or where it is refused; run and compared with written-down
// lines. Serves demand 1: a crew sees the number and the place of docs/refusals.md.
#![tactic(auto)]

ghost use Rattle.std.specs.Prelude.{◌<◌};

use shown::{stop, word};
use std::io;
use tree::Tree;

// One class of a tree; a leaf has a longest packet.
fn class_line(rt: &impl Print, tree: Tree, i: usize) -> io::Result<()>
    requires { i < 64 }
{
    let leaf = sets::has(tree.leaves, i);
    let kind = if leaf { "leaf" } else { "inner" };
    let parent = tree.parent[i];
    let weight = tree.weight[i].0;
    print!(rt; "class {i}: {kind}, parent {parent}, weight {weight}")?;
    if leaf {
        let longest = tree.longest[i];
        print!(rt; ", longest {longest}")?;
    }
    word(rt, b"\n")
}

// Each class of a tree.
fn class_lines(rt: &impl Print, tree: Tree) -> io::Result<()> {
    for i in 1..=tree.count.min(Tree::MOST) {
        class_line(rt, tree, i)?;
    }
    Ok(())
}

// The round size Q; 0 where the tree breaks the plan rules.
fn round_size(tree: Tree) -> u64 {
    if shape::is_plan(tree) {
        shape::round_size(tree).0
    } else {
        0
    }
}

// An accepted plan: its first line ends with the rule of the round size where that is rule 2.
fn accepted(rt: &impl Print, tree: Tree, used: usize) -> io::Result<()> {
    let count = tree.count;
    let size = round_size(tree);
    let rule = if tree.follows { ", rule 2" } else { "" };
    println!(rt; "plan {count} classes, Q {size}, {used} bytes used{rule}")?;
    class_lines(rt, tree)
}

// What the reader says of the input.
fn answer(rt: &impl Print, input: &[u8]) -> io::Result<()> {
    let read = plan::read_plan(input);
    let verdict = read.verdict;
    let tree = read.tree;
    match verdict {
        Ok(()) => accepted(rt, tree, read.used),
        Err(refused) => stop(rt, refused),
    }
}

fn main(rt: HostRuntime) -> io::Result<()> {
    shown::with_whole(&rt, |input| answer(&rt, input))
}
