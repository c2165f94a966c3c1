// What the reader says of a plan; it runs, and is compared with the written-down answers.
use crate::output::outcome;
use shown::word;
use std::io;
use tree::Tree;

// The round size Q, where the tree obeys the plan rules.
fn round_size(rt: &impl Print, tree: Tree) -> io::Result<()> {
    if shape::is_plan(tree) {
        let size = shape::round_size(tree).0;
        print!(rt; " Q {size}")?;
    }
    Ok(())
}

// The tree of a plan's bytes.
pub(crate) fn tree_of(input: &[u8]) -> Tree {
    plan::read_plan(input).tree
}

// The answer to a plan: number, place, bytes used, classes, and Q where accepted; and its tree.
pub(crate) fn answer(rt: &impl Print, name: &[u8], input: &[u8]) -> io::Result<Tree> {
    let read = plan::read_plan(input);
    let used = read.used;
    let tree = read.tree;
    let count = tree.count;
    word(rt, name)?;
    outcome(rt, read.verdict)?;
    print!(rt; " {used} {count}")?;
    round_size(rt, tree)?;
    word(rt, b"\n")?;
    Ok(tree)
}
