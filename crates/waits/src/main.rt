// Reads a plan from standard input and prints for each leaf, in class order, how many bytes the whole link may send before its longest
// packet has gone: alone in its queue, and as the last of 32 such packets (R242); or where the plan is refused. Run on tree P and compared.
// Serves demand 3: the numbers are those of `promised`.
#![tactic(auto)]

use promised::LeafWaits;
use shown::stop;
use std::io;
use tree::Tree;

// The line of a leaf.
fn leaf_line(rt: &impl Print, class: usize, waits: LeafWaits) -> io::Result<()> {
    let alone = waits.alone.bytes.0;
    let full = waits.full.bytes.0;
    println!(rt; "wait {class} {alone} {full}")
}

// One class of a tree: a leaf has a line.
fn class_line(rt: &impl Print, tree: Tree, class: usize) -> io::Result<()> {
    let waits = promised::leaf_waits(tree, class);
    let alone = waits.alone;
    let verdict = alone.verdict;
    if let Ok(()) = verdict {
        leaf_line(rt, class, waits)?;
    }
    Ok(())
}

// Each leaf of a tree.
fn leaf_lines(rt: &impl Print, tree: Tree) -> io::Result<()> {
    for class in 1..Tree::CLASSES {
        class_line(rt, tree, class)?;
    }
    Ok(())
}

// What the reader says of the input.
fn answer(rt: &impl Print, input: &[u8]) -> io::Result<()> {
    let read = plan::read_plan(input);
    let verdict = read.verdict;
    let tree = read.tree;
    match verdict {
        Ok(()) => leaf_lines(rt, tree),
        Err(refused) => stop(rt, refused),
    }
}

fn main(rt: HostRuntime) -> io::Result<()> {
    shown::with_whole(&rt, |input| answer(&rt, input))
}
