// What the desk asks of a recorded run: where it ends (R220), and why a class is silent then, as a line (R218, R219). Entries for callers
// outside: they ask nothing. Serves demands 1 and 2.
#![tactic(auto)]

ghost use Rattle.std.specs.Prelude.{◌≡◌, suc, length};
ghost use Rattle.sound.specs.Sound.{SoundLink};
ghost use Rattle.desk.specs.Ending.{end_in, run_end};
ghost use Rattle.desk.specs.Told.{reason_line, Tells};

use checks::Refused;
use lines::{Line, Why};
use parts::PartRun;
use reasons::{Reason, Silence};
use run::Step;
use state::Link;

// The bytes of a part at most.
const TEXT: usize = 65_536;

// Runs the events from a place on, part by part, and answers the step that ends the run: the event there, read once more.
fn run_on(first: Link, input: &[u8], place: usize) -> Step
    requires { SoundLink first }
    ensures { result ≡ end_in (suc (length input.now)) first input.now place }
{
    let mut text = [0u8; TEXT];
    let mut part = PartRun {
        laid: 0,
        more: true,
        link: first,
        place,
    };
    while part.more {
        part = parts::part(part.link, input, part.place, &mut text);
    }
    run::next(part.link, input, part.place)
}

// The last step of a program's run: its line, and the link after the last event.
pub fn last_step(input: &[u8]) -> Step
    ensures { result ≡ run_end input.now }
{
    let step = run::first(input);
    if !step.more {
        return step;
    }
    run_on(step.link, input, step.place)
}

// The line of a reason.
fn reason_line(class: usize, reason: Reason) -> Line
    ensures { result ≡ reason_line class reason }
{
    match reason {
        Reason::Empty => Line::Silent(class as u64, Why::Empty, 0),
        Reason::Waits => Line::Silent(class as u64, Why::Waits, 0),
        Reason::Short(lacks) => Line::Silent(class as u64, Why::Short, lacks.0),
        Reason::Due => Line::Silent(class as u64, Why::Due, 0),
    }
}

// The line of a class: why it is silent, or that it is no leaf.
pub fn line(link: Link, class: usize) -> Line
    ensures { Tells link class result }
{
    let silence = reasons::why(link, class);
    match silence {
        Ok(reason) => reason_line(class, reason),
        Err(refused) => Line::NotTold(class as u64, refused.0.number() as u64),
    }
}
