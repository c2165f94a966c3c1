// Reads a plan from standard input and prints the bytes that the library writes of what it read, and nothing else, or where it is refused
// (R266). A word N is the length of the buffer; run on tree P, and the bytes are compared. Serves demand 1.
#![tactic(auto)]

use shown::{stop, word};
use std::env::Env;
use std::io;
use tree::Tree;

// The bytes of the longest plan: a rule record, 63 leaves and the end record.
const LONGEST_PLAN: usize = 507;

// The room for a word: a number below 2 to the power 64 has at most 20 digits, and zeros before them are taken too.
const LONGEST_WORD: usize = 64;

// The bytes written of a tree.
fn written(rt: &impl Print, tree: Tree, out: &mut [u8]) -> io::Result<()> {
    let w = written::write_plan(tree, out);
    let verdict = w.verdict;
    match verdict {
        Ok(()) => word(rt, &out[..w.used]),
        Err(refused) => stop(rt, refused),
    }
}

// What the reader says of the input, and the writer of its tree.
fn answer(rt: &impl Print, input: &[u8], out: &mut [u8]) -> io::Result<()> {
    let read = plan::read_plan(input);
    let verdict = read.verdict;
    let tree = read.tree;
    match verdict {
        Ok(()) => written(rt, tree, out),
        Err(refused) => stop(rt, refused),
    }
}

// Answers for the plan on standard input, with a buffer of so many bytes; no plan needs more than the longest.
fn reply(rt: &(impl Input + Print), bytes: u64) -> io::Result<()> {
    let mut out = [0u8; LONGEST_PLAN];
    let length = bytes.min(LONGEST_PLAN as u64) as usize;
    shown::with_whole(rt, |input| answer(rt, input, &mut out[..length]))
}

// The number that the word is; one that is longer than its room is none.
fn first_word(rt: &impl Env) -> Option<u64> {
    let mut text = [0u8; LONGEST_WORD];
    match rt.arg(1, &mut text) {
        Ok(n) => words::read_number(&text[..n]),
        Err(_) => None,
    }
}

// The buffer's length that the words ask; none for anything but one number or no word.
fn asked(rt: &impl Env) -> Option<u64> {
    match shown::arg_count(rt) {
        0 | 1 => Some(LONGEST_PLAN as u64),
        2 => first_word(rt),
        _ => None,
    }
}

fn main(rt: HostRuntime) -> io::Result<()> {
    match asked(&rt) {
        Some(room) => reply(&rt, room),
        None => {
            shown::say(
                &rt.stderr(),
                b"planwrite: expected no word, or the buffer's length in bytes: digits, below 2 to the power 64\n",
            )
        }
    }
}
