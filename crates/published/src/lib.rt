// The engine as published (section IV of the published HLS paper): permits are shared out only when a leaf is visited. Its rules as
// definitions, its own soundness list, and that it answers what the first engine answers; no code: the calls stand in `published_link`.
// Serves demands 1 to 3 for the second engine.
#![tactic(auto)]

use calls::{Arrival, Departure};
use checks::Verdict;
use state::Link;

// The second engine's link: one of the first, the set of the classes that have their quota in this round, and the quotas (R316).
#[derive(Clone, Copy)]
pub struct Second {
    pub link: Link,
    pub asked: u64,
    pub quotas: [u64; Link::CLASSES],
}

// What a fresh link of the second engine asked of a tree gives.
// R163: the link of a refused one is the link of zeros; so it stands beside the verdict, and not in a Result.
#[derive(Drop)]
pub struct SecondFresh {
    pub verdict: Verdict,
    pub link: Second,
}

// What an arrival gives: the link after it and its answer, as the first engine's stand.
#[derive(Drop)]
pub struct SecondArrival {
    pub link: Second,
    pub answer: Arrival,
}

// What a send gives.
#[derive(Drop)]
pub struct SecondSend {
    pub link: Second,
    pub answer: Departure,
}
