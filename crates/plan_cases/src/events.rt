// What the event reader answers; it runs, and is compared with the written-down answers.
ghost use Rattle.std.specs.Prelude.{◌≤◌, IfOk};

use crate::output::refusal;
use crate::texts::from;
use checks::Refused;
use packed::command::number_16;
use plan::event::Event;
use plan::{Arrived, EventRead};
use shown::word;
use std::io;

// An arrival's class, length and tag.
fn arrival(rt: &impl Print, a: Arrived) -> io::Result<()> {
    let class = a.class;
    let length = a.length;
    let tag = a.tag;
    print!(rt; ": arrive {class} {length} {tag}")
}

// The answer to an event, and the bytes used.
fn answer(rt: &impl Print, event: EventRead) -> io::Result<()> {
    match event {
        Ok(None) => word(rt, b": end")?,
        Ok(Some(Event::Arrive(a))) => arrival(rt, a)?,
        Ok(Some(Event::SendNext)) => word(rt, b": send")?,
        Err(Refused(refused, p)) => refusal(rt, refused.number(), p)?,
    }
    let used = plan::used(event);
    println!(rt; " used {used}")
}

// A single event: place 2, the bytes from there on.
pub(crate) fn single(rt: &impl Print, name: &[u8], body: &[u8]) -> io::Result<()> {
    word(rt, name)?;
    answer(
        rt,
        plan::read_event(from(body, 2), number_16(body, 0) as usize),
    )
}

// One event of a run of events, at its place; the bytes used.
fn event(rt: &impl Print, name: &[u8], rest: &[u8], place: usize) -> io::Result<usize>
    ensures { IfOk result (λ n. n ≤ 8) }
{
    let e = plan::read_event(rest, place);
    word(rt, name)?;
    print!(rt; ", at {place}")?;
    answer(rt, e)?;
    Ok(plan::used(e))
}

// The events after a plan, one after the other, until the input ends or one is refused.
fn events_after(rt: &impl Print, name: &[u8], input: &[u8], used: usize) -> io::Result<()> {
    let events = plan::events_after(input, used);
    let mut at: usize = 0;
    while at <= events.len() {
        let step = event(rt, name, &events[at..], used + at)?;
        if step == 0 {
            return Ok(());
        }
        at += step;
    }
    Ok(())
}

// An input of a plan and events: each event.
pub(crate) fn plan_and_events(rt: &impl Print, name: &[u8], input: &[u8]) -> io::Result<()> {
    let read = plan::read_plan(input);
    events_after(rt, name, input, read.used)
}
