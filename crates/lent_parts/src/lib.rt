// A run part by part, as `parts::part`, by the box's loop: one link record in one local, lent to both calls, event after event (R164).
// An entry for callers outside: it asks nothing. Serves demands 1 and 2: R203 to R206, by the same contract.
#![tactic(auto)]

ghost use Rattle.std.specs.Prelude.{◌≡◌, true, ◌+◌, ◌≤◌, length};
ghost use Rattle.io.specs.Counts.{IsPrefixLen};
ghost use Rattle.lines.specs.Line.{line_room};
ghost use Rattle.parts.specs.Part.{Parts};
ghost use Rattle.parts.specs.Steps.{Taken};
ghost use Rattle.lent_parts.specs.Turns.{call_at, turn_at, Called, Follows, Ends};

use lines::Line;
use parts::PartRun;
use plan::EventRead;
use plan::event::Event;
use state::{Link, Packet};

// A turn of the loop: the call that is made, if any; where the next line is laid; the event's place, the place after it, and the event as
// it was read.
#[derive(Drop)]
pub struct Turn {
    pub call: Option<Event>,
    pub laid: usize,
    pub place: usize,
    pub after: usize,
    pub read: EventRead,
}

// The call of an event that was read: it is made where its line fits.
fn call_of(read: EventRead, fits: bool) -> Option<Event>
    ensures { result ≡ call_at fits read }
{
    match read {
        Ok(event) => { if fits { event } else { None } }
        Err(_) => None,
    }
}

// The turn of the event at a place of the input, where so much is laid of so much room.
fn turn_at(input: &[u8], place: usize, laid: usize, room: usize) -> Turn
    requires { laid ≤ room }
    ensures { result ≡ turn_at input.now room laid place }
{
    let rest = plan::events_after(input, place);
    let read = plan::read_event(rest, place);
    let fits = parts::takes_one(true, laid, room);
    Turn {
        call: call_of(read, fits),
        laid,
        place,
        after: place + plan::used(read),
        read,
    }
}

// A call on the lent record, and its line.
fn called(event: Event, link: &mut Link) -> Line
    ensures { Called link.old event result link.new }
{
    match event {
        Event::Arrive(a) => {
            let packet = Packet {
                length: a.length,
                tag: a.tag,
            };
            let answer = lent::arrive(link, a.class as usize, packet);
            run::arrival_line(answer, a)
        }
        Event::SendNext => {
            let answer = lent::send(link);
            run::send_line(answer)
        }
    }
}

// A call's line is laid, and the next event is read.
fn next_turn(line: Line, turn: Turn, input: &[u8], out: &mut [u8]) -> Turn
    requires { turn.laid + line_room ≤ length out.old }
    ensures { Follows line turn input.now out.old result out.new }
{
    let room = out.len();
    let laid = lines::lay_at(line, turn.laid, out);
    turn_at(input, turn.after, laid, room)
}

// The end of a part: there is no room for one more line, or the last line is laid.
fn ended(turn: Turn, link: Link, out: &mut [u8]) -> PartRun
    requires { turn.laid ≤ length out.old }
    ensures { Ends turn link out.old result out.new }
{
    let place = turn.place;
    if !parts::takes_one(true, turn.laid, out.len()) {
        return PartRun {
            laid: turn.laid,
            more: true,
            link,
            place,
        };
    }
    let read = turn.read;
    let laid = lines::lay_at(run::last_line(read, link), turn.laid, out);
    PartRun {
        laid,
        more: false,
        link,
        place,
    }
}

// The loop: one record, lent to each call.
fn serve(first: Link, input: &[u8], start: Turn, out: &mut [u8]) -> PartRun
    requires { start ≡ turn_at input.now (length out.old) 0 start.place }
    ensures { Taken first input.now start.place out.old result out.new }
{
    let mut link = first;
    let mut turn = start;
    while let Some(event) = turn.call {
        let line = called(event, &mut link);
        turn = next_turn(line, turn, input, out);
    }
    ended(turn, link, out)
}

// A part of a run: events from a place on, laid into a lent buffer as long as the run goes on and there is room for one more line. Whether
// the record is sound is decided once: the contract speaks of it.
pub fn part(link: Link, input: &[u8], place: usize, out: &mut [u8]) -> PartRun
    ensures parts { Parts link input.now place out.old result out.new }
    ensures prefix_len { IsPrefixLen result.laid out.new }
{
    let _ = sound::is_sound(link);
    let start = turn_at(input, place, 0, out.len());
    serve(link, input, start, out)
}
