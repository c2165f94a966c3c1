// What the writer says of the tree at hand and a buffer full of marks (R258 to R263); it runs, and is compared with written-down answers.
use crate::output::outcome;
use packed::command::number_16;
use shown::word;
use std::io;
use tree::Tree;

// What a buffer holds before a plan is written into it.
const MARK: u8 = 238;

// All bytes of a buffer, each in two hexadecimal digits.
fn bytes(rt: &impl Print, out: &[u8]) -> io::Result<()> {
    word(rt, b" ")?;
    for byte in out {
        print!(rt; "{byte:02x}")?;
    }
    word(rt, b"\n")
}

// The answer: number, place and bytes written, and then the whole buffer.
fn answer(rt: &impl Print, tree: Tree, out: &mut [u8]) -> io::Result<()> {
    let w = written::write_plan(tree, out);
    let used = w.used;
    outcome(rt, w.verdict)?;
    print!(rt; " {used}")?;
    bytes(rt, out)
}

// The tree at hand written into a buffer: its length 2.
pub(crate) fn written(rt: &impl Print, name: &[u8], tree: Tree, body: &[u8]) -> io::Result<()> {
    let mut out = [MARK; 520];
    let room = (number_16(body, 0) as usize).min(out.len());
    word(rt, name)?;
    answer(rt, tree, &mut out[..room])
}
