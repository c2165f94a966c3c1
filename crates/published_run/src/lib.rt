// A whole run of the second engine, line by line: the plan's line is the first engine's, and so is the line of each answer. Entries for
// callers outside: they ask nothing.
// Serves demands 1 and 2: its lines are those of the first engine's run on the same input (`same_lines`, proofs/Lines).
#![tactic(auto)]

ghost use Rattle.std.specs.Prelude.{◌≡◌};
ghost use Rattle.calls.specs.Run.{arrival, send};
ghost use Rattle.run.specs.Event.{packet_in, last_line};
ghost use Rattle.published_run.specs.Steps.{second_begins, last_of, CallsSecond, GoesOnSecond};

use lines::Line;
use plan::event::Event;
use plan::{Arrived, EventRead};
use published_link::Second;
use state::Packet;

// What the plan or an event gives: a line, and whether the run goes on, with which link and at which place.
#[derive(Drop)]
pub struct SecondStep {
    pub line: Line,
    pub more: bool,
    pub link: Second,
    pub place: usize,
}

// A program's run begins here, as the first engine's: number 10 before all else; in a fresh link no class has a quota.
pub fn first(input: &[u8]) -> SecondStep
    ensures { result ≡ second_begins input.now }
{
    let step = run::first(input);
    SecondStep {
        line: step.line,
        more: step.more,
        link: Second {
            link: step.link,
            asked: 0,
            quotas: [0u64; 64],
        },
        place: step.place,
    }
}

// The run ends with an event that is no call.
fn last(read: EventRead, second: Second, place: usize) -> SecondStep
    ensures { result ≡ last_of (last_line read second.link) second place }
{
    SecondStep {
        line: run::last_line(read, second.link),
        more: false,
        link: second,
        place,
    }
}

// An arrival, after which the run goes on from a place.
fn arrival(second: Second, a: Arrived, place: usize) -> SecondStep
    ensures { CallsSecond second (arrival a.class (packet_in a)) place result }
{
    let packet = Packet {
        length: a.length,
        tag: a.tag,
    };
    let answered = published_link::arrive(second, a.class as usize, packet);
    SecondStep {
        line: run::arrival_line(answered.answer, a),
        more: true,
        link: answered.link,
        place,
    }
}

// A send, likewise.
fn send(second: Second, place: usize) -> SecondStep
    ensures { CallsSecond second send place result }
{
    let sent = published_link::send(second);
    SecondStep {
        line: run::send_line(sent.answer),
        more: true,
        link: sent.link,
        place,
    }
}

// And goes on with the event at a place of its input.
pub fn next(second: Second, input: &[u8], place: usize) -> SecondStep
    ensures { GoesOnSecond second input.now place result }
{
    let rest = plan::events_after(input, place);
    let event = plan::read_event(rest, place);
    let after = place + plan::used(event);
    match event {
        Ok(None) => last(event, second, place),
        Ok(Some(Event::Arrive(a))) => arrival(second, a, after),
        Ok(Some(Event::SendNext)) => send(second, after),
        Err(_) => last(event, second, place),
    }
}
