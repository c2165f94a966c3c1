// Recorded runs: inputs one after the other, each after its length plus 1 in three bytes; prints for each how many lines its run has and
// a sum over their bytes. Where 128 is added to the first of the three, it does the same for the run over the second engine, and for the
// lines that say why each leaf is silent and those of each class's totals, after the plan and after each event. The expected sums are
// those of the second program's lines (bin/record writes both files). Serves demands 1 and 2.
#![tactic(auto)]

ghost use Rattle.std.specs.Prelude.{◌<◌, IfOk, IfSome};

use lines::Line;
use shown::word;
use state::Link;
use std::io::Result;

// What was printed of a run so far: its lines, and a sum in which each byte counts by its place.
#[derive(Drop)]
struct Tally {
    lines: u64,
    sum: u64,
}

// The sums are below this number, a prime.
const BELOW: u64 = 4_294_967_291;

impl Tally {
    // Nothing yet.
    fn none() -> Tally {
        Tally { lines: 0, sum: 0 }
    }

    // One byte more; it may end a line.
    fn add_byte(&mut self, byte: u8)
        ensures { self.new.sum < 4_294_967_291 }
    {
        if byte == b'\n' {
            self.lines = self.lines % 1_000_000 + 1;
        }
        self.sum = (self.sum % BELOW * 257 + u64::from(byte) + 1) % BELOW;
    }

    // The bytes of a text more.
    fn add_text(&mut self, text: &[u8]) {
        for byte in text {
            self.add_byte(*byte);
        }
    }

    // A line more.
    fn add_line(&mut self, line: Line) {
        let mut text = [0u8; 112];
        let n = lines::lay(line, &mut text);
        self.add_text(&text[..n]);
    }

    // A word and a number more.
    fn add_number(&mut self, text: &[u8], n: u64) {
        let mut digits = [0u8; 20];
        let k = io::decimal(n, &mut digits);
        self.add_text(text);
        self.add_text(&digits[..k]);
    }

    // Why each leaf of a link is silent.
    fn add_leaves(&mut self, link: &Link) {
        for class in 1..Link::CLASSES {
            if sets::has(link.tree.leaves, class) {
                self.add_line(desk::line(*link, class));
            }
        }
    }

    // The line of a class's totals: packets and bytes.
    fn add_total(&mut self, class: usize, packets: u64, bytes: u64) {
        self.add_number(b"total ", class as u64);
        self.add_number(b" ", packets);
        self.add_number(b" ", bytes);
        self.add_text(b"\n");
    }

    // The totals of each class of a link, from the root to the last.
    fn add_totals(&mut self, link: &Link) {
        for class in 0..=link.tree.count.min(Link::CLASSES - 1) {
            self.add_total(class, link.totals.packets[class], link.totals.bytes[class]);
        }
    }
}

// The bytes of a part at most: few, so that a run has many parts.
const TEXT: usize = 1_000;

// All lines of a run: the first one, then those of the events, part by part.
fn whole(input: &[u8]) -> Result<Tally> {
    let mut tally = Tally::none();
    let step = run::first(input);
    tally.add_line(step.line);
    let mut text = [0u8; TEXT];
    by_parts::each_part(step, input, &mut text, parts::part, |laid| {
        tally.add_text(laid);
        Ok(())
    })?;
    Ok(tally)
}

// All lines of the run over the second engine, event by event.
fn whole_second(input: &[u8]) -> Tally {
    let mut tally = Tally::none();
    let mut step = published_run::first(input);
    tally.add_line(step.line);
    while step.more {
        step = published_run::next(step.link, input, step.place);
        tally.add_line(step.line);
    }
    tally
}

// What was told of a run's links so far: why each leaf is silent, and the totals of each class.
#[derive(Drop)]
struct Both {
    silent: Tally,
    totals: Tally,
}

// Both after the plan and after each event; and the last line of the run, where that is `stop`.
fn after_each(input: &[u8]) -> Both {
    let mut silent = Tally::none();
    let mut totals = Tally::none();
    let mut step = run::first(input);
    while step.more {
        silent.add_leaves(&step.link);
        totals.add_totals(&step.link);
        step = run::next(step.link, input, step.place);
    }
    if matches!(step.line, Line::Stop(_, _)) {
        silent.add_line(step.line);
        totals.add_line(step.line);
    }
    Both { silent, totals }
}

// How many lines, and the sum over them.
fn show(rt: &impl Print, tally: Tally) -> Result<()> {
    let lines = tally.lines;
    let sum = tally.sum;
    print!(rt; " lines {lines} sum {sum}")
}

// What was told.
fn show_both(rt: &impl Print, both: Both) -> Result<()> {
    word(rt, b" silent")?;
    show(rt, both.silent)?;
    word(rt, b" totals")?;
    show(rt, both.totals)
}

// The line of a run.
fn show_run(rt: &impl Print, k: usize, asked: bool, input: &[u8]) -> Result<()> {
    print!(rt; "run {k}")?;
    show(rt, whole(input)?)?;
    if asked {
        word(rt, b" second")?;
        show(rt, whole_second(input))?;
        show_both(rt, after_each(input))?;
    }
    word(rt, b"\n")
}

// The most inputs.
const RUNS: usize = 10_000;

// What is added to a length where it is asked for the second engine, why leaves are silent and what the totals are.
const ASKED: usize = 8_388_608;

// What stands before an input: its length, at most what is refused as too long, and whether more is asked than its run.
#[derive(Drop)]
struct Head {
    asked: bool,
    length: usize,
}

// What stands before the next input; nothing where there is none.
fn next_head(rt: &impl Input) -> Result<Option<Head>>
    ensures { IfOk result (λ o. IfSome o (λ (h : Head). h.length < 65_538)) }
{
    let mut head = [0u8; 3];
    if shown::read_full(rt, &mut head)? < 3 {
        return Ok(None);
    }
    let number = u32::from_be_bytes([0, head[0], head[1], head[2]]) as usize;
    match number % ASKED {
        0 => Ok(None),
        after => Ok(Some(Head {
            asked: ASKED <= number,
            length: (after - 1).min(checks::MOST_INPUT + 1),
        })),
    }
}

// One run of the input after a head.
fn one(rt: &(impl Input + Print), k: usize, head: Head) -> Result<()>
    requires { head.length < 65_538 }
{
    let mut room = [0u8; checks::MOST_INPUT + 1];
    shown::with_input(
        rt,
        &mut room[..head.length],
        |input| show_run(rt, k, head.asked, input),
    )
}

fn main(rt: HostRuntime) -> Result<()> {
    for k in 0..RUNS {
        let Some(head) = next_head(&rt)? else {
            break;
        };
        one(&rt, k, head)?;
    }
    Ok(())
}
