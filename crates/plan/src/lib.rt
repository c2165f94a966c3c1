// The plan reader, the event reader and the reader of recordings: any bytes in, the answer of R40 to R67 and R286 to R294 out, and never a
// fault. Entries for callers (R1, R196).
// Serves demand 1. What they are made of stands in the modules, each named for its specs file; `reader::read_records` reads
// the records alone.
#![tactic(auto)]

pub mod entry;
pub mod event;
pub mod kind;
pub mod reader;
pub mod record;

ghost use Rattle.std.specs.Prelude.{◌≡◌, ◌+◌, ◌^◌, ◌<◌, ◌≤◌, length, drop};
ghost use Rattle.plan.specs.Reader.{plan_of};
ghost use Rattle.plan.specs.Event.{used_of, event_at};
ghost use Rattle.plan.specs.Entry.{entry_at};

use checks::{Refusal, Refused, Verdict};
use entry::Entry;
use event::Event;
pub use event::event_at;
use kind::Section;
use record::HeadFault;
use tree::Tree;

// What the reader says of a plan: a verdict, the bytes used and the tree.
// R62: of a refused plan no bytes are used and the tree has no class; so both stand beside the verdict, and not in a Result.
#[derive(Drop)]
pub struct PlanRead {
    pub verdict: Verdict,
    pub used: usize,
    pub tree: Tree,
}

// One arrival: a class, a length and a tag, any at all.
#[derive(Clone, Copy, Debug, PartialEq, Eq)]
pub struct Arrived {
    pub class: u8,
    pub length: u16,
    pub tag: u32,
}

// What the event reader says: an event, none where the input has ended, or what is refused.
pub type EventRead = Result<Option<Event>, Refused>;

// A claim of a recording: the packet that was sent, or none where none waited.
pub type Claim = Option<Arrived>;

// What the reader of recordings says: an entry, none where the input has ended, or what is refused, its place counted from the entry's
// first byte on.
pub type EntryRead = Result<Option<Entry>, Refused>;

// The reader: any bytes at all.
pub fn read_plan(input: &[u8]) -> PlanRead
    ensures { result ≡ plan_of input.now }
{
    reader::close_plan(reader::read_records(input))
}

// The events after a plan: the part of the input that starts where the reader stopped. No place in it is past what a place can be.
pub fn events_after(input: &[u8], used: usize) -> &[u8]
    ensures result_value { result.now ≡ drop used input.now }
    ensures result_bound { used + length result.now < 2 ^ 64 }
{
    if input.len() < used {
        return &input[input.len()..];
    }
    &input[used..]
}

// The event reader: the record at the front of the rest of the input, which stands at a place of the whole.
pub fn read_event(rest: &[u8], place: usize) -> EventRead
    ensures { result ≡ event_at rest.now place }
{
    match record::read_head(rest, Section::Events) {
        Err(HeadFault::NoKindByte) => Ok(None),
        Err(HeadFault::StrangeKind) => Err(Refused(Refusal::UnknownKind, place)),
        Err(HeadFault::CutBody) => Err(Refused(Refusal::Cut, place)),
        Ok(kind) => event::whole_event(rest, kind),
    }
}

// How many bytes an event that was read has used: the next one stands after them.
pub fn used(read: EventRead) -> usize
    ensures { (result ≡ used_of read) × (result ≤ 8) }
{
    match read {
        Ok(None) => 0,
        Ok(Some(Event::Arrive(_))) => 8,
        Ok(Some(Event::SendNext)) => 1,
        Err(_) => 0,
    }
}

// The reader of recordings: the entry at the front of the rest of the input.
pub fn read_entry(rest: &[u8]) -> EntryRead
    ensures { result ≡ entry_at rest.now }
{
    match record::read_head(rest, Section::Recordings) {
        Err(HeadFault::NoKindByte) => Ok(None),
        Err(HeadFault::StrangeKind) => Err(Refused(Refusal::UnknownKind, 0)),
        Err(HeadFault::CutBody) => Err(Refused(Refusal::Cut, 0)),
        Ok(kind) => {
            if kind::gives_claim(kind) {
                return Err(Refused(Refusal::Unpaired, 0));
            }
            entry::whole_entry(rest, kind)
        }
    }
}
