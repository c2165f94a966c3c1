// A planner's question and its answer (R176 to R184): the words, one by one, give a capacity and a table of requests; on the plan's bytes
// these give the rates. No function asks anything but `line`, whose class is a number of the table.
#![tactic(auto)]

ghost use Rattle.std.specs.Prelude.{◌≡◌, ◌<◌, Ok};
ghost use Rattle.words.specs.Word.{word_number, pair_of};
ghost use Rattle.asked.specs.Asked.{begun_by, requested, heeded};
ghost use Rattle.asked.specs.Answer.{refused_with, last_of, OfPlan, Answered, line_of};

use allot::Allotted;
use checks::{Refused, Verdict};
use lines::Line;
use plan::PlanRead;
use tree::Tree;

// What the words so far ask: the capacity, and a request for each class number.
#[derive(Drop)]
pub struct Asked {
    pub capacity: u64,
    pub requests: [u64; Tree::CLASSES],
}

// The answer: the last class that has a line, and the rates.
#[derive(Clone, Copy)]
pub struct Answer {
    pub last: usize,
    pub allotted: Allotted,
}

// The first word: the capacity; nothing is asked where it is not taken.
pub fn open(word: &[u8]) -> Option<Asked>
    ensures { result ≡ begun_by (word_number word.now) }
{
    let Some(capacity) = words::read_number(word) else {
        return None;
    };
    let requests = [capacity; Tree::CLASSES];
    Some(Asked { capacity, requests })
}

// A class requests something else.
fn requested(mut asked: Asked, class: usize, request: u64) -> Asked
    requires { class < 64 }
    ensures { result ≡ requested asked class request }
{
    asked.requests[class] = request;
    asked
}

// Each other word: a class and its request; nothing is asked where it is not taken, nor where nothing was asked before it.
pub fn heed(asked: Option<Asked>, word: &[u8]) -> Option<Asked>
    ensures { result ≡ heeded asked (pair_of word.now) }
{
    let before = asked?;
    match words::read_pair(word) {
        Some((class, request)) => Some(requested(before, class, request)),
        None => None,
    }
}

// A refusal.
fn refuse(refused: Refused) -> Answer
    ensures { result ≡ refused_with refused }
{
    let requests = [0u64; Tree::CLASSES];
    let gets = [0u64; Tree::CLASSES];
    let unallotted = [0u64; Tree::CLASSES];
    let verdict = Err(refused);
    let allotted = Allotted {
        verdict,
        requests,
        gets,
        unallotted,
    };
    Answer { last: 0, allotted }
}

// The last class that has a line.
fn last_of(verdict: Verdict, count: usize) -> usize
    ensures { result ≡ last_of verdict count }
{
    match verdict {
        Ok(()) => count,
        Err(_) => 0,
    }
}

// The rates of a tree.
fn of_tree(read: PlanRead, capacity: u64, requests: [u64; Tree::CLASSES]) -> Answer
    ensures { OfPlan (Ok tt) read capacity requests result }
{
    let tree = read.tree;
    let allotted = allot::rates(tree, capacity, requests);
    let verdict = allotted.verdict;
    let last = last_of(verdict, tree.count);
    Answer { last, allotted }
}

// What a plan that was read gives.
fn of_plan(read: PlanRead, capacity: u64, requests: [u64; Tree::CLASSES]) -> Answer
    ensures { OfPlan read.verdict read capacity requests result }
{
    let verdict = read.verdict;
    match verdict {
        Ok(()) => of_tree(read, capacity, requests),
        Err(refused) => refuse(refused),
    }
}

// What a program's input gives.
pub fn rates_of(input: &[u8], capacity: u64, requests: [u64; Tree::CLASSES]) -> Answer
    ensures { Answered input.now capacity requests result }
{
    let long = checks::input_length(input.len());
    match long {
        Ok(()) => of_plan(plan::read_plan(input), capacity, requests),
        Err(refused) => refuse(refused),
    }
}

// The line of a class.
pub fn line(answer: Answer, k: usize) -> Line
    requires { k < 64 }
    ensures { result ≡ line_of answer k }
{
    let a = answer.allotted;
    let verdict = a.verdict;
    match verdict {
        Ok(()) => Line::Rate(k as u64, a.requests[k], a.gets[k], a.unallotted[k]),
        Err(refused) => Line::Stop(refused.0.number() as u64, refused.1 as u64),
    }
}
