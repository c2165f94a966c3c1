// A run whose input is read window by window (R243 to R248): a part of it in a window, without the line that would end it there; whether a
// window's last bytes wait for more; the bytes that are carried to the next window; and the last line. Serves demands 1 and 2: however the
// input is cut into windows, the lines are those of the run.
#![tactic(auto)]

ghost use Rattle.std.specs.Prelude.{◌≡◌, ◌++◌, ◌-◌, ◌≤◌, length, take, drop};
ghost use Rattle.io.specs.Counts.{IsPrefixLen};
ghost use Rattle.plan.specs.Event.{event_at};
ghost use Rattle.lines.specs.Line.{bytes_of};
ghost use Rattle.run.specs.Event.{last_line};
ghost use Rattle.stream.specs.Window.{unfinished_at, InWindow};

use checks::Refusal;
use lines::Line;
use parts::PartRun;
use plan::EventRead;
use state::Link;

// The last line of a run, at the rest of its input, which stands at a place of the whole and is no call: `end`, or `stop` number place.
pub fn last_line(link: Link, rest: &[u8], place: usize) -> Line
    ensures { result ≡ last_line (event_at rest.now place) link }
{
    run::last_line(plan::read_event(rest, place), link)
}

// How many bytes the line has that ends a run at a place of its input.
fn last_length(link: Link, input: &[u8], place: usize) -> usize
    ensures { result ≡ length (bytes_of (last_line (event_at (drop place input.now) place) link)) }
{
    let rest = plan::events_after(input, place);
    let mut text = [0u8; 112];
    lines::lay(last_line(link, rest, place), &mut text)
}

// A part of a run in a window of its input: a part, without the line that would end the run at the window's end.
pub fn part(link: Link, window: &[u8], place: usize, out: &mut [u8]) -> PartRun
    ensures in_window { InWindow link window.now place out.old result out.new }
    ensures prefix_len { IsPrefixLen result.laid out.new }
{
    let part = parts::part(link, window, place, out);
    if part.more {
        return part;
    }
    let link = part.link;
    let last = last_length(link, window, part.place);
    PartRun {
        laid: part.laid - last,
        more: false,
        link,
        place: part.place,
    }
}

// Whether the rest of a window waits for more bytes: there is none, or a record that is cut.
pub fn unfinished(rest: &[u8]) -> bool
    ensures { result ≡ unfinished_at rest.now }
{
    let event = plan::read_event(rest, 0);
    match event {
        Ok(None) => true,
        Ok(Some(_)) => false,
        Err(refused) => refused.0.number() == Refusal::Cut.number(),
    }
}

// Carries the bytes of a window from a place up to its end to its front, and answers how many they are.
pub fn carry(window: &mut [u8], from: usize, to: usize) -> usize
    requires { (from ≤ to) × (to ≤ length window.old) }
    ensures value { result ≡ to - from }
    ensures window_after { window.new ≡ take (to - from) (drop from window.old) ++ drop (to - from) window.old }
{
    window.copy_within(from..to, 0);
    to - from
}
