// Mends the plan on standard input: prints each changed class with its old and its new weight and then how many there are, or with the
// word `write` the bytes of the mended plan, or where it is refused (R275). Run on tree P with a weight too low, and compared. Serves
// demand 1.
#![tactic(auto)]

use mended::{Change, Changes, Mended};
use shown::{stop, word};
use std::env::Env;
use std::io;
use tree::Tree;

// The bytes of the longest plan: a rule record, 63 leaves and the end record.
const LONGEST_PLAN: usize = 507;

// The room for a word.
const LONGEST_WORD: usize = 64;

// One change.
fn change_line(rt: &impl Print, change: &Change) -> io::Result<()> {
    let class = change.class;
    let old = change.old.0;
    let new = change.new.0;
    println!(rt; "mend {class} {old} {new}")
}

// What changed, and how many there are.
fn listed(rt: &impl Print, changes: &Changes) -> io::Result<()> {
    let count = changes.count;
    for change in changes.at.iter().take(count) {
        change_line(rt, change)?;
    }
    println!(rt; "plan {count}")
}

// The bytes of a tree's plan.
fn bytes_of(rt: &impl Print, tree: Tree) -> io::Result<()> {
    let mut out = [0u8; LONGEST_PLAN];
    let w = written::write_plan(tree, &mut out);
    let verdict = w.verdict;
    match verdict {
        Ok(()) => word(rt, &out[..w.used]),
        Err(refused) => stop(rt, refused),
    }
}

// What mending says of the input; a mended plan is shown as the caller says.
fn answer<F: FnOnce(Mended) -> io::Result<()>>(
    rt: &impl Print,
    input: &[u8],
    show: F,
) -> io::Result<()>
    requires { F.IsAlwaysCallable show }
{
    let m = mended::mend(input);
    let verdict = m.verdict;
    match verdict {
        Ok(()) => show(m),
        Err(refused) => stop(rt, refused),
    }
}

// Answers for the plan on standard input.
fn reply<F: FnOnce(Mended) -> io::Result<()>>(rt: &(impl Input + Print), show: F) -> io::Result<()>
    requires { F.IsAlwaysCallable show }
{
    shown::with_whole(rt, |input| answer(rt, input, show))
}

// Whether the first word is `write`; one that is longer than its room is not.
fn first_is_write(rt: &impl Env) -> bool {
    let mut text = [0u8; LONGEST_WORD];
    rt.arg(1, &mut text)
        .is_ok_and(|n| &text[..n] == b"write".as_slice())
}

fn main(rt: HostRuntime) -> io::Result<()> {
    let count = shown::arg_count(&rt);
    if count < 2 {
        return reply(&rt, |m| listed(&rt, &m.changes));
    }
    if count == 2 && first_is_write(&rt) {
        return reply(&rt, |m| bytes_of(&rt, m.tree));
    }
    shown::say(
        &rt.stderr(),
        b"mend: expected no word, or the word `write`\n",
    )
}
