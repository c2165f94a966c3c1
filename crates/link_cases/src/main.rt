// Commands on one link record, a line for each answer: fresh links, arrivals, sends and soundness of any record of numbers (demands 1
// and 2), in both engines; it runs, and is compared with the written-down answers. The record is the second engine's: the first engine's
// calls take the link inside.
#![tactic(auto)]

mod books;
mod fit;
mod link_fields;
mod second;

ghost use Rattle.std.specs.Prelude.{◌<◌, ◌≤◌};
ghost use Rattle.state.specs.Queue.{start_of, held_of};

use checks::Verdict;
use link::{Arrival, Departure};
use packed::command::{next, number_8, number_16, number_32, number_64, part};
use published_link::Second;
use shown::{either, pair, word};
use state::{Link, Packet, Waiting, queue};
use std::io;
use tree::Tree;

// What a command asks, by its first byte; then comes its body.
#[derive(Drop)]
enum Command {
    // A name: length 1, text.
    Name,
    // A plan: length 2, its bytes.
    Plan,
    // A fresh link of the tree at hand.
    Fresh,
    // An arrival: class 8, length 2, tag 4.
    Arrive,
    // The first packet of a class leaves: class 8.
    Take,
    // A value stored into one number of the record: field 1, index 2, value 8.
    Store,
    // The record is kept.
    Keep,
    // Back to the kept record.
    Back,
    // Whether the record is sound.
    Sound,
    // Whether the record is the very same as the kept one.
    Compare,
    // A send.
    Send,
    // The books of the record.
    Books,
    // The totals of the record.
    Totals,
    // The totals are made to fit.
    Fit,
    // The second engine's: a fresh link of the tree at hand.
    SecondFresh,
    // Its arrival: class 8, length 2, tag 4.
    SecondArrive,
    // Its send.
    SecondSend,
    // Whether the record is sound by its list.
    SecondSound,
    // Who has asked, and the quotas.
    Quotas,
    // Any other byte: nothing.
    Other,
}

impl From<u64> for Command {
    fn from(byte: u64) -> Command {
        match byte {
            1 => Command::Name,
            2 => Command::Plan,
            3 => Command::Fresh,
            4 => Command::Arrive,
            5 => Command::Take,
            6 => Command::Store,
            7 => Command::Keep,
            8 => Command::Back,
            9 => Command::Sound,
            10 => Command::Compare,
            11 => Command::Send,
            12 => Command::Books,
            13 => Command::Totals,
            14 => Command::Fit,
            15 => Command::SecondFresh,
            16 => Command::SecondArrive,
            17 => Command::SecondSend,
            18 => Command::SecondSound,
            19 => Command::Quotas,
            _ => Command::Other,
        }
    }
}

// What the bytes of a command ask.
fn asks(command: &[u8]) -> Command {
    Command::from(number_8(command, 0))
}

// The bytes of a command.
fn size(command: &[u8]) -> usize
    ensures { 1 ≤ result }
{
    match asks(command) {
        Command::Name => 2 + number_8(command, 1) as usize,
        Command::Plan => 3 + number_16(command, 1) as usize,
        Command::Arrive | Command::SecondArrive => 15,
        Command::Take => 9,
        Command::Store => 12,
        _ => 1,
    }
}

// A word, then a verdict's number and place.
fn print_verdict(rt: &impl Print, text: &[u8], v: Verdict) -> io::Result<()> {
    pair(rt, text, checks::number(v) as u64, checks::place(v) as u64)
}

// The name of a case.
fn name(rt: &impl Print, command: &[u8]) -> io::Result<()> {
    word(rt, b"# ")?;
    word(rt, part(command, 2, 2 + number_8(command, 1) as usize))?;
    word(rt, b"\n")
}

// What a fresh link answers.
pub(crate) fn print_fresh(rt: &impl Print, verdict: Verdict, link: &Link) -> io::Result<()> {
    let size = link.round.size.0;
    print_verdict(rt, b"fresh ", verdict)?;
    println!(rt; " size {size}")
}

// A fresh link of a tree.
fn fresh(rt: &impl Print, tree: Tree) -> io::Result<Link> {
    let got = link::fresh(tree);
    print_fresh(rt, got.verdict, &got.link)?;
    Ok(got.link)
}

// A fresh link of a plan's tree.
fn plan(rt: &impl Print, command: &[u8]) -> io::Result<Link> {
    let read = plan::read_plan(part(command, 3, 3 + number_16(command, 1) as usize));
    fresh(rt, read.tree)
}

// How many packets a class holds; none where there is no such class number.
fn held_by(link: &Link, class: usize) -> u8 {
    link.held.get(class).copied().unwrap_or(0)
}

// Whether a record came back the very same.
pub(crate) fn print_same(rt: &impl Print, same: bool) -> io::Result<()> {
    either(rt, same, b" same\n", b" changed\n")
}

// The class and the packet of an arrival.
#[derive(Drop)]
pub(crate) struct Coming {
    pub(crate) class: usize,
    pub(crate) packet: Packet,
}

// An arrival out of a command.
pub(crate) fn arrival_in(command: &[u8]) -> Coming {
    let length = number_16(command, 9) as u16;
    let tag = number_32(command, 11) as u32;
    Coming {
        class: number_64(command, 1) as usize,
        packet: Packet { length, tag },
    }
}

// An arrival's answer.
pub(crate) fn answered(rt: &impl Print, answer: Arrival) -> io::Result<()> {
    let bytes = answer.bytes.0;
    print_verdict(rt, b"in ", answer.verdict)?;
    print!(rt; " bytes {bytes}")
}

// An arrival, and whether the record came back the very same.
fn arrive(rt: &impl Print, before: Link, command: &[u8]) -> io::Result<Link> {
    let Coming { class, packet } = arrival_in(command);
    let got = link::arrive(before, class, packet);
    answered(rt, got.answer)?;
    let held = held_by(&got.link, class);
    print!(rt; " held {held}")?;
    print_same(rt, before == got.link)?;
    Ok(got.link)
}

// A packet that left.
fn took(rt: &impl Print, packet: Waiting) -> io::Result<()> {
    let length = packet.length;
    let tag = packet.tag;
    let mark = packet.mark;
    println!(rt; "took {length} {tag} mark {mark}")
}

// The first packet of a class leaves.
fn left(rt: &impl Print, mut link: Link, class: usize) -> io::Result<Link>
    requires { (class < 64) × (start_of link class < 32) × (1 ≤ held_of link class) }
{
    took(
        rt,
        queue::first(class, &link.start, &link.lengths, &link.tags, &link.marks),
    )?;
    queue::take(class, &mut link.start, &mut link.held);
    Ok(link)
}

// It does where there is one, and the totals fit then.
fn take(rt: &impl Print, before: Link, command: &[u8]) -> io::Result<Link> {
    let class = number_64(command, 1) as usize;
    if class < 64 && 1 <= before.held[class] && before.start[class] < 32 {
        return Ok(fit::fit(left(rt, before, class)?));
    }
    word(rt, b"took nothing\n")?;
    Ok(before)
}

// A value stored into one number of the record.
fn store(before: Second, command: &[u8]) -> Second {
    let field = number_8(command, 1);
    let index = number_16(command, 2) as usize;
    second::stored(before, field, index, number_64(command, 4))
}

// Whether a record is sound.
pub(crate) fn print_sound(rt: &impl Print, sound: bool) -> io::Result<()> {
    either(rt, sound, b"sound yes\n", b"sound no\n")
}

// A send's answer.
pub(crate) fn sent(rt: &impl Print, answer: Departure) -> io::Result<()> {
    let class = answer.class;
    let length = answer.length;
    let tag = answer.tag;
    let rounds = answer.rounds;
    let waited = answer.waited;
    print_verdict(rt, b"out ", answer.verdict)?;
    print!(rt; " class {class} length {length} tag {tag} rounds {rounds} waited {waited}")
}

// A send, and whether the record came back the very same.
fn send(rt: &impl Print, before: Link) -> io::Result<Link> {
    let got = link::send(before);
    sent(rt, got.answer)?;
    print_same(rt, before == got.link)?;
    Ok(got.link)
}

// What a command on the first engine's link only tells.
fn tell(rt: &impl Print, link: Link, command: &[u8]) -> io::Result<()> {
    match asks(command) {
        Command::Sound => print_sound(rt, sound::is_sound(link)),
        Command::Books => books::show(rt, &link),
        Command::Totals => books::totals(rt, &link),
        _ => Ok(()),
    }
}

// The link inside after a command on it alone.
fn link_after(rt: &impl Print, link: Link, command: &[u8]) -> io::Result<Link> {
    match asks(command) {
        Command::Arrive => arrive(rt, link, command),
        Command::Take => take(rt, link, command),
        Command::Send => send(rt, link),
        Command::Fit => Ok(fit::fit(link)),
        _ => {
            tell(rt, link, command)?;
            Ok(link)
        }
    }
}

// The record at hand, and the one that is kept.
#[derive(Drop)]
struct Records {
    held: Second,
    kept: Second,
}

impl Records {
    // The record at hand after a command. A fresh link of the first engine is one in which no class has a quota.
    fn after(&self, rt: &impl Print, command: &[u8]) -> io::Result<Second> {
        let held = self.held;
        match asks(command) {
            Command::Name => {
                name(rt, command)?;
                Ok(held)
            }
            Command::Plan => Ok(second::unasked(plan(rt, command)?)),
            Command::Fresh => Ok(second::unasked(fresh(rt, held.link.tree)?)),
            Command::Store => Ok(store(held, command)),
            Command::Back => Ok(self.kept),
            Command::Compare => {
                word(rt, b"kept")?;
                print_same(rt, second::same(&self.kept, &held))?;
                Ok(held)
            }
            Command::SecondFresh => second::fresh(rt, held),
            Command::SecondArrive => second::arrive(rt, held, command),
            Command::SecondSend => second::send(rt, held),
            Command::SecondSound => second::sound(rt, held),
            Command::Quotas => second::quotas(rt, held),
            _ => Ok(second::with_link(held, link_after(rt, held.link, command)?)),
        }
    }

    // The kept record after a command.
    fn kept_after(&self, command: &[u8]) -> Second {
        if matches!(asks(command), Command::Keep) {
            self.held
        } else {
            self.kept
        }
    }
}

// Every command, one after the other, on one link record and a kept one.
fn run(rt: &impl Print, input: &[u8]) -> io::Result<()> {
    let none = second::unasked(Link::none());
    let mut records = Records {
        held: none,
        kept: none,
    };
    let mut at: usize = 0;
    while at < input.len() {
        let command = &input[at..];
        records.held = records.after(rt, command)?;
        records.kept = records.kept_after(command);
        at = next(at, size(command), input.len());
    }
    Ok(())
}

// The most bytes of commands.
const MOST: usize = 131_072;

fn main(rt: HostRuntime) -> io::Result<()> {
    let mut room = [0u8; MOST];
    shown::with_input(&rt, &mut room, |input| run(&rt, input))
}
