// Why leaves are silent when a run has ended (R218 to R220): the words are class numbers, none for every leaf; a plan and its events come
// from standard input, and each class has a line. It reads, calls and prints; what is printed stands in `desk` and `reasons`.
// Run on tree P and compared.
#![tactic(auto)]

use checks::MOST_INPUT;
use lines::Line;
use run::Step;
use shown::LONGEST_WORD;
use state::Link;
use std::env::Env;
use std::io;

// The number that a word is, and a message where it is none.
fn judged(stderr: &impl Print, i: usize, word: &[u8]) -> io::Result<Option<u64>> {
    let number = words::read_number(word);
    if number.is_none() {
        shown::refuse(
            stderr,
            b"silent",
            i,
            word,
            b"a class number: one or more digits, below 2 to the power 64",
        )?;
    }
    Ok(number)
}

// The number that word i is; a word that is longer than its room is none.
fn class_word(rt: &impl Env, stderr: &impl Print, i: usize) -> io::Result<Option<u64>> {
    let mut room = [0u8; LONGEST_WORD];
    match rt.arg(i, &mut room) {
        Ok(n) => judged(stderr, i, &room[..n]),
        Err(_) => judged(stderr, i, &room),
    }
}

// Whether word i is a number.
fn good(rt: &impl Env, stderr: &impl Print, i: usize) -> io::Result<bool> {
    let number = class_word(rt, stderr, i)?;
    Ok(number.is_some())
}

// Whether every word is a number; the first that is not has a message.
fn all_good(rt: &impl Env, stderr: &impl Print) -> io::Result<bool> {
    for i in 1..shown::arg_count(rt) {
        if !good(rt, stderr, i)? {
            return Ok(false);
        }
    }
    Ok(true)
}

// The line of the class that word i names.
fn print_word(
    rt: &(impl Print + Env),
    stderr: &impl Print,
    link: Link,
    i: usize,
) -> io::Result<()> {
    if let Some(class) = class_word(rt, stderr, i)? {
        shown::print(rt, desk::line(link, class as usize))?;
    }
    Ok(())
}

// The lines of the words, in their order.
fn print_words(rt: &(impl Print + Env), stderr: &impl Print, link: Link) -> io::Result<()> {
    for i in 1..shown::arg_count(rt) {
        print_word(rt, stderr, link, i)?;
    }
    Ok(())
}

// The lines of all leaves, in class order.
fn print_leaves(rt: &impl Print, link: Link) -> io::Result<()> {
    for class in (1..Link::CLASSES).filter(|class| sets::has(link.tree.leaves, *class)) {
        shown::print(rt, desk::line(link, class))?;
    }
    Ok(())
}

// What is asked of a run that has ended: a `stop` is the only line.
fn reply(rt: &(impl Print + Env), stderr: &impl Print, end: Step) -> io::Result<()> {
    if matches!(end.line, Line::Stop(_, _)) {
        shown::print(rt, end.line)?;
        return Ok(());
    }
    if shown::arg_count(rt) < 2 {
        print_leaves(rt, end.link)
    } else {
        print_words(rt, stderr, end.link)
    }
}

fn main(rt: HostRuntime) -> io::Result<()> {
    let stderr = rt.stderr();
    if !all_good(&rt, &stderr)? {
        return Ok(());
    }
    let mut room = [0u8; MOST_INPUT + 1];
    shown::with_input(&rt, &mut room, |input| {
        reply(&rt, &stderr, desk::last_step(input))
    })
}
