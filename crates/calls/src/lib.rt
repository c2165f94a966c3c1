// What the calls of the library answer (R151 to R163): the answers, the rules of the calls as definitions, and their laws; no code: the
// calls stand in `link`. Serves demands 1 and 2.
#![tactic(auto)]

use checks::Verdict;
use state::{Link, Totals};
use units::Bytes;

// What a fresh link asked of a tree gives: a verdict and the link.
// R163: the link of a refused one is the link of zeros; so it stands beside the verdict, and not in a Result.
#[derive(Drop)]
pub struct AfterFresh {
    pub verdict: Verdict,
    pub link: Link,
}

// What an arrival answers: its verdict, and the charged bytes that wait in its leaf then, the new packet included; 0 where it is refused.
// R163: in an answer that refuses every further number is 0; so they stand beside the verdict, and not in a Result.
#[derive(Clone, Copy)]
pub struct Arrival {
    pub verdict: Verdict,
    pub bytes: Bytes,
}

// What an arrival gives: the link after it and its answer. The link stands first: the compiler makes fewer copies of it so.
#[derive(Drop)]
pub struct AfterArrival {
    pub link: Link,
    pub answer: Arrival,
}

// What a send answers: a verdict, the packet that goes with its class, the rounds opened in the call, and the bytes charged on the link
// from the packet's acceptance to its end. All numbers of a refused one are 0.
// R163: in an answer that refuses every further number is 0; so they stand beside the verdict, and not in a Result.
#[derive(Clone, Copy)]
pub struct Departure {
    pub verdict: Verdict,
    pub class: usize,
    pub length: u16,
    pub tag: u32,
    pub rounds: usize,
    pub waited: u64,
}

// What a send gives: the link after it and its answer.
#[derive(Drop)]
pub struct AfterSend {
    pub link: Link,
    pub answer: Departure,
}

// What the panel is told of a link: a verdict, and the totals of every class number, all 0 where it is refused.
// R163: in an answer that refuses every further number is 0; so they stand beside the verdict, and not in a Result.
#[derive(Drop)]
pub struct PanelTotals {
    pub verdict: Verdict,
    pub totals: Totals,
}

// And of one class number.
#[derive(Drop)]
pub struct ClassTotals {
    pub verdict: Verdict,
    pub packets: u64,
    pub bytes: Bytes,
}
