// A refusal and a verdict on standard output; they run, and are compared with the written-down answers.
use checks::Verdict;
use std::io;

// A refusal's number and place.
pub(crate) fn refusal(rt: &impl Print, n: u8, place: usize) -> io::Result<()> {
    print!(rt; ": refused {n} {place}")
}

// A verdict's number and place, 0 and 0 where nothing is refused.
pub(crate) fn outcome(rt: &impl Print, v: Verdict) -> io::Result<()> {
    let n = checks::number(v);
    let place = checks::place(v);
    print!(rt; ": {n} {place}")
}
