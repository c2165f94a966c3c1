// Named cases of the plan rules, the readers (R21 to R67) and the writer, packed as commands: each is run, and its lines are compared with
// the written-down ones. Serves demand 1: what the plan reader, the event reader, the plan rules and the writer say. The cases are edited
// in cases/plan_cases.txt.
#![tactic(auto)]

mod events;
mod kinds;
mod output;
mod plans;
mod texts;
mod trees;
mod writes;

use packed::command::{next, number_8};
use shown::word;
use std::io;
use tree::Tree;

// What a command asks, by its first byte; then come a name (length 1, text) and a body (length 2, bytes).
#[derive(Drop)]
enum Command {
    // A remark: its name on a line.
    Remark,
    // What the reader says of a plan: its bytes. Its tree is then at hand.
    Plan,
    // Each class of the tree at hand.
    Classes,
    // What the event reader says: place 2, the bytes from there on.
    Event,
    // A plan and its events, one after the other: all their bytes.
    Events,
    // The tree of a plan is at hand: its bytes.
    TreeOf,
    // A value stored into one number of the tree at hand: field 1, index 2, value 8.
    Store,
    // Whether the tree at hand obeys the plan rules.
    Rules,
    // An unknown kind in a plan, and among events: place 2, all bytes. It is counted.
    PlanKind,
    EventKind,
    // How many unknown kinds were counted: place 2.
    Count,
    // The tree at hand written into a buffer: the buffer's length 2.
    Write,
    // Any other byte: nothing.
    Other,
}

impl From<u64> for Command {
    fn from(byte: u64) -> Command {
        match byte {
            1 => Command::Remark,
            2 => Command::Plan,
            3 => Command::Classes,
            4 => Command::Event,
            5 => Command::Events,
            6 => Command::TreeOf,
            7 => Command::Store,
            8 => Command::Rules,
            9 => Command::PlanKind,
            10 => Command::EventKind,
            11 => Command::Count,
            12 => Command::Write,
            _ => Command::Other,
        }
    }
}

// What is at hand between two commands: a tree, and how many unknown kinds were counted.
#[derive(Drop)]
struct AtHand {
    tree: Tree,
    count: u64,
}

impl AtHand {
    // A command on what is at hand, with its name and its body.
    fn obey(
        &mut self,
        rt: &impl Print,
        command: Command,
        name: &[u8],
        body: &[u8],
    ) -> io::Result<()> {
        match command {
            Command::Remark => remark(rt, name)?,
            Command::Plan => self.tree = plans::answer(rt, name, body)?,
            Command::Classes => trees::class_lines(rt, self.tree)?,
            Command::Event => events::single(rt, name, body)?,
            Command::Events => events::plan_and_events(rt, name, body)?,
            Command::TreeOf => self.tree = plans::tree_of(body),
            Command::Store => self.tree = trees::stored(self.tree, body),
            Command::Rules => trees::rules(rt, name, self.tree)?,
            Command::PlanKind => self.count = kinds::in_plan(rt, self.count, body)?,
            Command::EventKind => self.count = kinds::among_events(rt, self.count, body)?,
            Command::Count => self.count = kinds::counted(rt, self.count, name, body)?,
            Command::Write => writes::written(rt, name, self.tree, body)?,
            Command::Other => {}
        }
        Ok(())
    }
}

// A remark.
fn remark(rt: &impl Print, text: &[u8]) -> io::Result<()> {
    word(rt, text)?;
    word(rt, b"\n")
}

// Every command, one after the other.
fn run(rt: &impl Print, input: &[u8]) -> io::Result<()> {
    let mut at_hand = AtHand {
        tree: Tree::none(),
        count: 0,
    };
    let mut at: usize = 0;
    while at < input.len() {
        let rest = &input[at..];
        let command = Command::from(number_8(rest, 0));
        at_hand.obey(rt, command, texts::name(rest), texts::body(rest))?;
        at = next(at, texts::size(rest), input.len());
    }
    Ok(())
}

// The most bytes of commands.
const MOST: usize = 65_536;

fn main(rt: HostRuntime) -> io::Result<()> {
    let mut room = [0u8; MOST];
    shown::with_input(&rt, &mut room, |input| run(&rt, input))
}
