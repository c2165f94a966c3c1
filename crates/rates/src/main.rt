// Which rates will a plan give (R174 to R184): the words are the capacity and CLASS=REQUEST, the plan comes from standard input, and
// each class has a line. It reads, calls and prints; what a word means stands in `words`, the question and its answer in `asked`.
// Run on tree P and compared.
#![tactic(auto)]

use asked::{Answer, Asked};
use checks::MOST_INPUT;
use shown::LONGEST_WORD;
use std::env::Env;
use std::io;
use tree::Tree;

// The message for a word that is not taken.
fn refuse(stderr: &impl Print, i: usize, word: &[u8]) -> io::Result<()> {
    let expected: &[u8] = match i {
        1 => b"the capacity in kbit/s: one or more digits, below 2 to the power 64",
        _ =>
            b"CLASS=REQUEST: digits, `=`, digits; the class at most 63, the request below 2 to the power 64",
    };
    shown::refuse(stderr, b"rates", i, word, expected)
}

// What the words ask with a word more: the first opens the question.
fn with_word(asked: Option<Asked>, word: &[u8]) -> Option<Asked> {
    match asked {
        None => asked::open(word),
        Some(_) => asked::heed(asked, word),
    }
}

// The same, and a message where the word is not taken.
fn judged(
    stderr: &impl Print,
    asked: Option<Asked>,
    i: usize,
    word: &[u8],
) -> io::Result<Option<Asked>> {
    let next = with_word(asked, word);
    if next.is_none() {
        refuse(stderr, i, word)?;
    }
    Ok(next)
}

// What the words ask with word i; a word that is longer than its room is not taken.
fn with_next(
    rt: &impl Env,
    stderr: &impl Print,
    asked: Option<Asked>,
    i: usize,
) -> io::Result<Option<Asked>> {
    let mut room = [0u8; LONGEST_WORD];
    match rt.arg(i, &mut room) {
        Ok(n) => judged(stderr, asked, i, &room[..n]),
        Err(_) => {
            refuse(stderr, i, &room)?;
            Ok(None)
        }
    }
}

// What the words ask; nothing from the first that is not taken on.
fn question(rt: &impl Env, stderr: &impl Print) -> io::Result<Option<Asked>> {
    let mut asked = None;
    for i in 1..shown::arg_count(rt) {
        asked = with_next(rt, stderr, asked, i)?;
        if asked.is_none() {
            break;
        }
    }
    Ok(asked)
}

// Prints the lines of an answer: one for each class from 0 to the last.
fn print_all(rt: &impl Print, answer: Answer) -> io::Result<()> {
    for k in 0..=answer.last.min(Tree::MOST) {
        shown::print(rt, asked::line(answer, k))?;
    }
    Ok(())
}

// Answers a question for the plan on standard input.
fn reply(rt: &(impl Input + Print), asked: Asked) -> io::Result<()> {
    let mut room = [0u8; MOST_INPUT + 1];
    shown::with_input(rt, &mut room, |input| {
        print_all(rt, asked::rates_of(input, asked.capacity, asked.requests))
    })
}

fn main(rt: HostRuntime) -> io::Result<()> {
    let stderr = rt.stderr();
    if shown::arg_count(&rt) < 2 {
        return shown::say(
            &stderr,
            b"rates: no word: expected the capacity in kbit/s, then CLASS=REQUEST for each class that requests something else\n",
        );
    }
    if let Some(asked) = question(&rt, &stderr)? {
        reply(&rt, asked)?;
    }
    Ok(())
}
