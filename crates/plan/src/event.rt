// An event record that passed its checks, its body read by its kind's reader; and an event read where it lies in the input.
// Serves demand 1.
ghost use Rattle.std.specs.Prelude.{◌≡◌, false, ◌+◌, ◌^◌, ◌≤◌, ◌<◌, length, drop};
ghost use Rattle.plan.specs.Record.{kind_at, cut};
ghost use Rattle.plan.specs.Event.{arrived_of, event_of, used_of, event_at};
ghost use Rattle.plan.specs.Steps.{arrived_at};

use crate::kind::{RecordKind, Section};
use crate::record::{number_16, number_32};
use crate::{Arrived, EventRead, kind};
use checks::{Refusal, Refused};

// An event: an arrival or a send.
#[derive(Clone, Copy, Debug, PartialEq, Eq)]
pub enum Event {
    Arrive(Arrived),
    SendNext,
}

// Kind 16, and 18: class 1, length 2, tag 4.
pub(crate) fn read_arrival(body: &[u8]) -> Arrived
    requires { length body.now ≡ 7 }
    ensures { result ≡ arrived_of body.now }
{
    Arrived {
        class: body[0],
        length: number_16(body, 1),
        tag: number_32(body, 3),
    }
}

// A whole event record.
pub(crate) fn whole_event(rest: &[u8], kind: RecordKind) -> EventRead
    requires { (cut rest.now ≡ false) × (kind ≡ kind_at rest.now) }
    ensures { result ≡ event_of rest.now }
{
    if !kind::gives_arrival(kind) {
        return Ok(Some(Event::SendNext));
    }
    let end = kind::record_length(kind);
    Ok(Some(Event::Arrive(read_arrival(&rest[1..end]))))
}

// The same of the record that begins after a place's kind byte, read where it lies.
fn arrival_at(input: &[u8], at: usize) -> Arrived
    requires { at + 7 ≤ length input.now }
    ensures { result ≡ arrived_at input.now at }
{
    Arrived {
        class: input[at],
        length: number_16(input, at + 1),
        tag: number_32(input, at + 3),
    }
}

// The event at a place of the input, read where it lies: what the event reader says of the rest from there on. The place after it is no
// more than a place can be.
pub fn event_at(input: &[u8], place: usize) -> EventRead
    ensures value { result ≡ event_at (drop place input.now) place }
    ensures result_bound { place + used_of result < 2 ^ 64 }
{
    if input.len() <= place {
        return Ok(None);
    }
    let kind = kind::record_kind(input[place]);
    if !kind::stands_in(Section::Events, kind) {
        return Err(Refused(Refusal::UnknownKind, place));
    }
    if input.len() - place < kind::record_length(kind) {
        return Err(Refused(Refusal::Cut, place));
    }
    if !kind::gives_arrival(kind) {
        return Ok(Some(Event::SendNext));
    }
    Ok(Some(Event::Arrive(arrival_at(input, place + 1))))
}
