// The loops that bin/speed times: the first events of a recording by the library's public calls, and single calls. Entries for a measuring
// program: they ask nothing. They are no part of the product. What they answer is compared with the plain scheduler's sends.
#![tactic(auto)]

pub mod opening_times;

ghost use Rattle.std.specs.Prelude.{◌≡◌, ◌+◌, ◌^◌, ◌<◌, true, length, if◌then◌else◌};
ghost use Rattle.plan.specs.Reader.{plan_of};
ghost use Rattle.sound.specs.Sound.{SoundLink};
ghost use Rattle.calls.specs.Run.{run_of, made_in, last_link};
ghost use Rattle.run.specs.Event.{packet_in};
ghost use Rattle.run.specs.Run.{begin_of};
ghost use Rattle.speed.specs.Timed.{timed_run, send_number, tallied, heard_arrival, tally_of, SoundTimes, fresh_size};
ghost use Rattle.speed.specs.Timed.{no_timed, timed_at, calls_in, timed_text, LaysText};

use link::{Arrival, Departure};
use plan::event::Event;
use plan::{Arrived, EventRead};
use state::{Link, Packet};

// A run so far: the link, and all answers in one number.
#[derive(Drop)]
pub struct Ran {
    pub link: Link,
    pub tally: u64,
}

// A send as one number: class, length, rounds and tag; 1 where it is refused.
fn number(d: Departure) -> u64
    ensures { result ≡ send_number d.verdict d }
{
    let verdict = d.verdict;
    match verdict {
        Ok(()) => {
            let packet = std::num::wrapping_add_u64(
                (d.class as u64) << 50,
                (d.length as u64) << 34,
            );
            std::num::wrapping_add_u64(
                std::num::wrapping_add_u64(packet, (d.rounds as u64) << 32),
                d.tag as u64,
            )
        }
        Err(_) => 1,
    }
}

// One answer more: 33 times what it was, and the next.
fn tallied(tally: u64, next: u64) -> u64
    ensures { result ≡ tallied tally next }
{
    std::num::wrapping_add_u64(std::num::wrapping_add_u64(tally << 5, tally), next)
}

// An arrival counts where it is refused.
fn after_arrival(tally: u64, answer: Arrival) -> u64
    ensures { result ≡ heard_arrival answer.verdict tally }
{
    let verdict = answer.verdict;
    match verdict {
        Ok(()) => tally,
        Err(_) => tallied(tally, 2),
    }
}

// A send counts by its number.
fn after_send(tally: u64, d: Departure) -> u64
    ensures { result ≡ tallied tally (send_number d.verdict d) }
{
    tallied(tally, number(d))
}

// An event of a timed run: the call that it is, if any; the place after it, and how many more events are asked for.
#[derive(Drop)]
pub struct TimedEvent {
    pub call: Option<Event>,
    pub place: usize,
    pub more: usize,
}

// An event that is no call: none is asked for after it.
fn no_call(place: usize) -> TimedEvent
    ensures { result ≡ no_timed place }
{
    TimedEvent {
        call: None,
        place,
        more: 0,
    }
}

// The packet of an arrival.
fn packet_of(a: Arrived) -> Packet
    ensures { result ≡ packet_in a }
{
    Packet {
        length: a.length,
        tag: a.tag,
    }
}

// The event at a place, one of so many that are asked for.
fn event_at(input: &[u8], place: usize, asked: usize) -> TimedEvent
    ensures { result ≡ timed_at asked input.now place }
{
    if asked == 0 {
        return no_call(place);
    }
    let rest = plan::events_after(input, place);
    let read = plan::read_event(rest, place);
    let after = place + plan::used(read);
    match read {
        Ok(Some(event)) => TimedEvent {
            call: Some(event),
            place: after,
            more: asked - 1,
        },
        Ok(None) => no_call(place),
        Err(_) => no_call(place),
    }
}

// The loop of the calls by value, from an event on.
fn by_value(first: Link, input: &[u8], start: TimedEvent) -> Ran
    requires { SoundLink first }
    ensures tally_value { result.tally ≡ tally_of 0 (made_in (run_of true first (calls_in input.now start))) }
    ensures link_value { result.link ≡ last_link first (made_in (run_of true first (calls_in input.now start))) }
{
    let mut link = first;
    let mut event = start;
    let mut tally: u64 = 0;
    while let Some(call) = event.call {
        match call {
            Event::Arrive(a) => {
                let answered = link::arrive(link, a.class as usize, packet_of(a));
                tally = after_arrival(tally, answered.answer);
                link = answered.link;
                event = event_at(input, event.place, event.more);
            }
            Event::SendNext => {
                let gone = link::send(link);
                tally = after_send(tally, gone.answer);
                link = gone.link;
                event = event_at(input, event.place, event.more);
            }
        }
    }
    Ran { link, tally }
}

// The first events of a recording by the calls by value; none where the plan is refused.
fn first_events(input: &[u8], events: usize) -> Ran
    ensures tally_value { result.tally ≡ tally_of 0 (timed_run events input.now) }
    ensures link_value { result.link ≡ last_link (begin_of input.now).link (timed_run events input.now) }
{
    let begun = run::begin(input);
    let link = begun.link;
    if begun.more {
        return by_value(link, input, event_at(input, begun.place, events));
    }
    Ran { link, tally: 0 }
}

// The first events of a recording by the calls by value: all answers in one number.
#[unsafe(no_mangle)]
pub extern "C" fn speed_by_value(input: &[u8], events: usize) -> u64
    ensures { result ≡ tally_of 0 (timed_run events input.now) }
{
    let all = first_events(input, events);
    all.tally
}

// One more where it was found sound.
fn found_so(found: usize, sound: bool) -> usize
    requires { found + 1 < 2 ^ 64 }
    ensures { result ≡ (if sound then found + 1 else found) }
{
    if sound { found + 1 } else { found }
}

// How often a link is found sound, asked so many times. A tag changes between two times, so that each is asked: tags have no say.
fn sound_times(first: Link, times: usize) -> usize
    ensures { SoundTimes first times result }
{
    let mut link = first;
    let mut found: usize = 0;
    for n in 0..times {
        found = found_so(found, sound::is_sound(link));
        link.tags[n % 32] = 7;
    }
    found
}

// The same of the link after the first events of a recording.
#[unsafe(no_mangle)]
pub extern "C" fn speed_sound(input: &[u8], events: usize, times: usize) -> usize
    ensures { SoundTimes (last_link (begin_of input.now).link (timed_run events input.now)) times result }
{
    let all = first_events(input, events);
    sound_times(all.link, times)
}

// The bytes that a plan uses.
#[unsafe(no_mangle)]
pub extern "C" fn speed_plan(input: &[u8]) -> usize
    ensures { result ≡ (plan_of input.now).used }
{
    let read = plan::read_plan(input);
    read.used
}

// The round size of a plan's fresh link, and a length of a waiting place, which is 0; 0 where the plan is refused.
#[unsafe(no_mangle)]
pub extern "C" fn speed_fresh(input: &[u8], at: usize) -> u64
    ensures { result ≡ fresh_size (plan_of input.now).verdict (plan_of input.now) }
{
    let read = plan::read_plan(input);
    let verdict = read.verdict;
    if let Err(_) = verdict {
        return 0;
    }
    let made = link::fresh(read.tree);
    let link = made.link;
    let size = link.round.size;
    std::num::wrapping_add_u64(size.0, u64::from(link.lengths[at % 2048]))
}

// The lines of a recording's events by the box's loop, one part of them: as many as the buffer has room for; how many bytes they are. None
// where the plan is refused.
#[unsafe(no_mangle)]
pub extern "C" fn speed_lent(input: &[u8], out: &mut [u8]) -> usize
    ensures { LaysText (timed_text input.now (length out.old)) out.old result out.new }
{
    let begun = run::begin(input);
    if !begun.more {
        return 0;
    }
    let link = begun.link;
    let part = lent_parts::part(link, input, begun.place, out);
    part.laid
}
