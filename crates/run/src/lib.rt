// A whole run, line by line: the plan's line, then each event's. Entries for callers outside: they ask nothing.
// Serves demands 1 and 2: the lines are those of R185 to R195, from the input's bytes, whatever they are (R196).
#![tactic(auto)]

ghost use Rattle.checks.specs.Check.{refusal_at};
ghost use Rattle.std.specs.Prelude.{◌≡◌, Ok};
ghost use Rattle.tree.specs.Rules.{PlanRules};
ghost use Rattle.calls.specs.Run.{arrival, send};
ghost use Rattle.checks.specs.Check.{number};
ghost use Rattle.lines.specs.declared.Line.TheVariants.{Stop};
ghost use Rattle.run.specs.Event.{packet_in, arrival_line, send_line, last_line, last_step, Calls, GoesOn};
ghost use Rattle.run.specs.Run.{plan_gives, begin_of, program_begins};

use checks::Refused;
use lines::Line;
use link::{Arrival, Departure};
use plan::event::Event;
use plan::{Arrived, EventRead, PlanRead};
use state::{Link, Packet};

// What the plan or an event gives: a line, and whether the run goes on, with which link and at which place.
#[derive(Drop)]
pub struct Step {
    pub line: Line,
    pub more: bool,
    pub link: Link,
    pub place: usize,
}

// The line of an arrival.
pub fn arrival_line(answer: Arrival, a: Arrived) -> Line
    ensures { result ≡ arrival_line answer a }
{
    let class = a.class as u64;
    let length = a.length as u64;
    let tag = a.tag as u64;
    let verdict = answer.verdict;
    match verdict {
        Ok(()) => Line::In(class, length, tag, answer.bytes.0),
        Err(refused) => Line::No(class, length, tag, refused.0.number() as u64),
    }
}

// The line of a send.
pub fn send_line(d: Departure) -> Line
    ensures { result ≡ send_line d }
{
    let verdict = d.verdict;
    match verdict {
        Ok(()) => Line::Out(
            d.class as u64,
            d.length as u64,
            d.tag as u64,
            d.rounds as u64,
            d.waited,
        ),
        Err(_) => Line::Nothing,
    }
}

// The line of what is refused: its number and its place.
pub fn stop_line(refused: Refused) -> Line
    ensures { result ≡ Stop (number refused.0) refused.1 }
{
    let Refused(refusal, place) = refused;
    Line::Stop(refusal.number() as u64, place as u64)
}

// The last line, of an event that is no call: the packets still waiting, as the root counts them, or the refusal of a record.
pub fn last_line(read: EventRead, link: Link) -> Line
    ensures { result ≡ last_line read link }
{
    match read {
        Ok(_) => Line::End(link.totals.packets[0]),
        Err(refused) => stop_line(refused),
    }
}

// The run ends with an event that is no call, or with a refused plan.
fn last(read: EventRead, link: Link, place: usize) -> Step
    ensures { result ≡ last_step read link place }
{
    Step {
        line: last_line(read, link),
        more: false,
        link,
        place,
    }
}

// An arrival, after which the run goes on from a place.
fn arrival(link: Link, a: Arrived, place: usize) -> Step
    ensures { Calls link (arrival a.class (packet_in a)) place result }
{
    let length = a.length;
    let tag = a.tag;
    let answered = link::arrive(link, a.class as usize, Packet { length, tag });
    let answer = answered.answer;
    let line = arrival_line(answer, a);
    let after = answered.link;
    Step {
        line,
        more: true,
        link: after,
        place,
    }
}

// A send, likewise.
fn send(link: Link, place: usize) -> Step
    ensures { Calls link send place result }
{
    let sent = link::send(link);
    let answer = sent.answer;
    let line = send_line(answer);
    let after = sent.link;
    Step {
        line,
        more: true,
        link: after,
        place,
    }
}

// A fresh link of an accepted plan.
fn linked(read: PlanRead) -> Step
    requires { PlanRules read.tree }
    ensures { result ≡ plan_gives (Ok tt) read }
{
    let tree = read.tree;
    let made = link::fresh(tree);
    let link = made.link;
    let size = link.round.size;
    let line = Line::Link(tree.count as u64, size.0);
    Step {
        line,
        more: true,
        link,
        place: read.used,
    }
}

// A run of input of any length begins with its plan's line.
pub fn begin(input: &[u8]) -> Step
    ensures { result ≡ begin_of input.now }
{
    let read = plan::read_plan(input);
    let verdict = read.verdict;
    match verdict {
        Ok(()) => linked(read),
        Err(refused) => last(Err(refused), Link::none(), 0),
    }
}

// A program's run begins here: number 10 before all else, and then nothing runs.
pub fn first(input: &[u8]) -> Step
    ensures { result ≡ program_begins input.now }
{
    let verdict = checks::input_length(input.len());
    match verdict {
        Ok(()) => begin(input),
        Err(refused) => last(Err(refused), Link::none(), 0),
    }
}

// And goes on with the event at a place of its input.
pub fn next(link: Link, input: &[u8], place: usize) -> Step
    ensures { GoesOn link input.now place result }
{
    let rest = plan::events_after(input, place);
    let event = plan::read_event(rest, place);
    let after = place + plan::used(event);
    match event {
        Ok(None) => last(event, link, place),
        Ok(Some(Event::Arrive(a))) => arrival(link, a, after),
        Ok(Some(Event::SendNext)) => send(link, after),
        Err(_) => last(event, link, place),
    }
}
