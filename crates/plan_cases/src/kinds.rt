// Unknown kinds, in a plan and among events, counted; any other answer is printed.
// They run, and are compared with the written-down answers.
use crate::output::refusal;
use crate::texts::from;
use checks::{Refusal, Refused, Verdict};
use packed::command::{number_8, number_16};
use plan::EventRead;
use shown::word;
use std::io;

// Whether a verdict is 2 at a place.
fn is_unknown(v: Verdict, place: usize) -> bool {
    v == Err(Refused(Refusal::UnknownKind, place))
}

// One more where a verdict is 2 at a place; any other verdict is printed, with the kind byte at that place.
fn one_more(rt: &impl Print, count: u64, v: Verdict, kind: u64, place: usize) -> io::Result<u64> {
    if is_unknown(v, place) {
        return Ok(count.saturating_add(1));
    }
    print!(rt; "kind {kind}")?;
    refusal(rt, checks::number(v), checks::place(v))?;
    word(rt, b"\n")?;
    Ok(count)
}

// The verdict on an event.
fn verdict_of(event: EventRead) -> Verdict {
    match event {
        Err(refused) => Err(refused),
        Ok(_) => Ok(()),
    }
}

// A kind in a plan: place 2, the bytes of the plan.
pub(crate) fn in_plan(rt: &impl Print, count: u64, body: &[u8]) -> io::Result<u64> {
    let place = number_16(body, 0) as usize;
    let input = from(body, 2);
    let read = plan::read_plan(input);
    let verdict = read.verdict;
    one_more(rt, count, verdict, number_8(input, place), place)
}

// A kind among events: place 2, the bytes of the whole input.
pub(crate) fn among_events(rt: &impl Print, count: u64, body: &[u8]) -> io::Result<u64> {
    let place = number_16(body, 0) as usize;
    let input = from(body, 2);
    let event = plan::read_event(plan::events_after(input, place), place);
    one_more(rt, count, verdict_of(event), number_8(input, place), place)
}

// A line of how many there were; the next is counted from 0.
pub(crate) fn counted(rt: &impl Print, count: u64, name: &[u8], body: &[u8]) -> io::Result<u64> {
    let place = number_16(body, 0);
    word(rt, name)?;
    println!(rt; ": {count} times 2 at {place}")?;
    Ok(0)
}
