// A whole run of input of any length (R248): a plan and its events from standard input, read window by window, one line for each thing. It
// prints the lines of `linkrun`, but for number 10. It reads, calls and writes; what a window gives stands in `stream`. Its memory is that
// of one window and one text. Run and compared with the listing.
#![tactic(auto)]

ghost use Rattle.std.specs.Prelude.{◌≡◌, ◌+◌, ◌^◌, ◌≤◌, ◌<◌, length, IfOk, IfSome};

use parts::PartRun;
use shown::{WINDOW, WINDOWS};
use state::Link;
use std::io;

// The bytes of a part's text at most.
const TEXT: usize = 65_536;

// Where a run that goes on stands: its link, the place in its window, and where in the input the window begins.
#[derive(Drop)]
struct At {
    link: Link,
    place: usize,
    offset: usize,
}

impl At {
    // The next window begins where the last one's events end.
    fn moved_on(self) -> At
        requires { self.offset + self.place < 2 ^ 64 }
        ensures { (result.place ≡ 0) × (result.offset ≡ self.offset + self.place) }
    {
        At {
            link: self.link,
            place: 0,
            offset: self.offset + self.place,
        }
    }
}

// Prints the lines of the events of a window from a place on, and tells with which link and at which place they end.
fn in_window(rt: &impl Print, link: Link, window: &[u8], place: usize) -> io::Result<PartRun>
    requires { place ≤ length window.now }
    ensures { IfOk result (λ (r : PartRun). r.place ≤ length window.now) }
{
    let mut part = PartRun {
        laid: 0,
        more: true,
        link,
        place,
    };
    let mut text = [0u8; TEXT];
    while part.more {
        part = stream::part(part.link, window, part.place, &mut text);
        shown::word(rt, &text[..part.laid])?;
    }
    Ok(part)
}

// A window of a run: its lines, and where the run goes on. It ends where the input ends with the window, or what stands in the rest of the
// window waits for no more bytes; then comes the last line.
fn next_window(rt: &impl Print, at: At, window: &[u8], last: bool) -> io::Result<Option<At>>
    requires { (at.place ≤ length window.now) × (at.offset + length window.now < 2 ^ 64) }
    ensures { IfOk result (λ o. IfSome o (λ (r : At). (r.place ≤ length window.now) × (r.offset ≡ at.offset))) }
{
    let part = in_window(rt, at.link, window, at.place)?;
    let rest = plan::events_after(window, part.place);
    if last || !stream::unfinished(rest) {
        shown::print(
            rt,
            stream::last_line(part.link, rest, at.offset + part.place),
        )?;
        return Ok(None);
    }
    Ok(Some(At {
        link: part.link,
        place: part.place,
        offset: at.offset,
    }))
}

fn main(rt: HostRuntime) -> io::Result<()> {
    let mut window = [0u8; WINDOW];
    let mut n = shown::read_full(&rt, &mut window)?;
    let step = run::begin(&window[..n]);
    shown::print(&rt, step.line)?;
    if !step.more {
        return Ok(());
    }
    let mut at = At {
        link: step.link,
        place: step.place,
        offset: 0,
    };
    for _window in 0..WINDOWS {
        let Some(next) = next_window(&rt, at, &window[..n], n < WINDOW)? else {
            return Ok(());
        };
        let kept = stream::carry(&mut window, next.place, n);
        n = shown::read_after(&rt, &mut window, kept)?;
        at = next.moved_on();
    }
    Ok(())
}
