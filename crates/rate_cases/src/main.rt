// Written-down cases of the rates of a tree (R68 to R85) that no single run of `rates` reaches; it runs, and is compared.
// The cases are the lines of its input: `# NAME` begins a case with no tree, `inner PARENT WEIGHT` and `leaf PARENT WEIGHT` add a class,
// `wild COUNT` sets the class count, `capacity N`, `every N` and `request CLASS N` set what is asked, and `answer` prints the rates.
// The expected lines are worked out by cases/rate_cases.py.
#![tactic(auto)]

ghost use Rattle.std.specs.Prelude.{◌<◌};

use allot::Allotted;
use checks::Verdict;
use lines::Line;
use shown::word;
use std::io;
use tree::{Class, Tree};
use units::Weight;

// A case: a tree, and what is asked of it.
#[derive(Drop)]
struct Case {
    tree: Tree,
    capacity: u64,
    requests: [u64; Tree::CLASSES],
}

// The number that a word of a line is, words parted by single spaces and counted from 0; 0 where there is none.
fn number_at(line: &[u8], k: usize) -> u64 {
    let word = line.split(|byte| *byte == b' ').nth(k).unwrap_or(&[]);
    words::read_number(word).unwrap_or(0)
}

// The number after the command's name, and the next.
fn first(line: &[u8]) -> u64 {
    number_at(line, 1)
}

fn second(line: &[u8]) -> u64 {
    number_at(line, 2)
}

// A case begins.
fn begun(rt: &impl Print, line: &[u8]) -> io::Result<Case> {
    word(rt, line)?;
    word(rt, b"\n")?;
    Ok(Case {
        tree: Tree::none(),
        capacity: 0,
        requests: [0; Tree::CLASSES],
    })
}

impl Case {
    // A class more; a leaf's longest packet is 1.
    fn add_class(&mut self, line: &[u8], leaf: bool) {
        if self.tree.count < Tree::MOST {
            let weight = Weight((second(line) % 4_294_967_296) as u32);
            let parent = (first(line) % 256) as u8;
            self.tree = self.tree.added(Class {
                parent,
                weight,
                longest: u16::from(leaf),
                leaf,
            });
        }
    }

    // Another request.
    fn set_request(&mut self, line: &[u8]) {
        let class = first(line) as usize;
        if class < Tree::CLASSES {
            self.requests[class] = second(line);
        }
    }
}

// The rates of class number k; nothing where all are 0 and none has to be shown.
fn print_rate(rt: &impl Print, a: Allotted, k: usize, show: bool) -> io::Result<()>
    requires { k < 64 }
{
    let request = a.requests[k];
    let gets = a.gets[k];
    let unallotted = a.unallotted[k];
    if show || request != 0 || gets != 0 || unallotted != 0 {
        shown::print(rt, Line::Rate(k as u64, request, gets, unallotted))?;
    }
    Ok(())
}

// Where a tree is refused, and whether it is not.
fn print_stop(rt: &impl Print, verdict: Verdict) -> io::Result<bool> {
    match verdict {
        Ok(()) => Ok(true),
        Err(refused) => {
            shown::stop(rt, refused)?;
            Ok(false)
        }
    }
}

// The lines of an answer: each class, and any other number that is not 0.
fn answered(rt: &impl Print, case: &Case) -> io::Result<()> {
    let a = allot::rates(case.tree, case.capacity, case.requests);
    let verdict = a.verdict;
    let passed = print_stop(rt, verdict)?;
    for k in 0..Tree::CLASSES {
        print_rate(rt, a, k, passed && k <= case.tree.count)?;
    }
    Ok(())
}

// One command, by its first letter.
fn command(rt: &impl Print, case: &mut Case, line: &[u8]) -> io::Result<()> {
    match line.first() {
        Some(b'#') => *case = begun(rt, line)?,
        Some(b'i') => case.add_class(line, false),
        Some(b'l') => case.add_class(line, true),
        Some(b'w') => case.tree.count = first(line) as usize,
        Some(b'c') => case.capacity = first(line),
        Some(b'e') => case.requests = [first(line); Tree::CLASSES],
        Some(b'r') => case.set_request(line),
        Some(b'a') => answered(rt, case)?,
        _ => {}
    }
    Ok(())
}

// Each line of a text.
fn each_line(rt: &impl Print, text: &[u8]) -> io::Result<()> {
    let mut case = begun(
        rt,
        b"Rates: rate CLASS REQUEST GETS UNALLOTTED for each class, or stop NUMBER PLACE",
    )?;
    for line in text.split(|byte| *byte == b'\n') {
        command(rt, &mut case, line)?;
    }
    Ok(())
}

fn main(rt: HostRuntime) -> io::Result<()> {
    let mut room = [0u8; 65_536];
    shown::with_input(&rt, &mut room, |text| each_line(&rt, text))
}
