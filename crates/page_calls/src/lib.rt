// The planner's page: the library's calls on bytes and number arrays that a page in a browser lends; bin/page compiles them to WebAssembly.
// Each says what the library says of the same bytes; specs/Kept says what the arrays mean. No function asks anything of its caller, and a
// link is made and gone within a call: no part of it is kept here. A refusal's number is answered in four bytes: a function that returns
// less leaves the upper bits of its result open. Serves demands 1 to 3.
#![tactic(auto)]

mod weights;

ghost use Rattle.std.specs.Prelude.{◌≡◌, cond, ◌||◌, [], ◌∷◌, ◌++◌, ◌+◌, eqb};
ghost use Rattle.checks.specs.Check.{number_of};
ghost use Rattle.units.specs.Cost.{cost_of};
ghost use Rattle.tree.specs.Sum.{table};
ghost use Rattle.written.specs.Bytes.{bytes16, bytes32, inner_bytes, leaf_bytes};
ghost use Rattle.lines.specs.Line.{Lays};
ghost use Rattle.run.specs.Run.{program_begins};
ghost use Rattle.page_calls.specs.Record.{arrival_bytes, length_of, record_of};
ghost use Rattle.page_calls.specs.Kept.{said_of, rule_of, numbers_of, tree_of, class_at, old_at, new_at};
ghost use Rattle.page_calls.specs.Calls.{Opens, WritesTree, MendsPlan, RatesOf, WaitsOf, BoundOf};
ghost use Rattle.page_calls.specs.Calls.{part_says, EventsBy, Events, TellsWhy};

use checks::Verdict;
use mended::Change;
use parts::PartRun;
use run::Step;
use tree::Tree;
use units::Bytes;

// A verdict as numbers.
fn said_of(verdict: Verdict, used: usize) -> [u64; 3]
    ensures { result ≡ said_of verdict used }
{
    let n = checks::number(verdict);
    let p = checks::place(verdict);
    [n as u64, p as u64, used as u64]
}

// ---- Records

// The record of a leaf, or of an inner class, whose longest is 0.
fn leaf_record(parent: u8, weight: u32, longest: u16) -> [u8; 8]
    ensures { result ≡ leaf_bytes parent weight longest }
{
    [
        2u8,
        parent,
        (weight / 16_777_216) as u8,
        (weight / 65_536 % 256) as u8,
        (weight / 256 % 256) as u8,
        (weight % 256) as u8,
        (longest / 256) as u8,
        (longest % 256) as u8,
    ]
}

fn inner_record(parent: u8, weight: u32) -> [u8; 8]
    ensures { result ≡ inner_bytes parent weight ++ (0 ∷ 0 ∷ []) }
{
    [
        1u8,
        parent,
        (weight / 16_777_216) as u8,
        (weight / 65_536 % 256) as u8,
        (weight / 256 % 256) as u8,
        (weight % 256) as u8,
        0,
        0,
    ]
}

// The record of an arrival.
fn arrival_record(class: u8, len: u16, tag: u32) -> [u8; 8]
    ensures { result ≡ arrival_bytes class len tag }
{
    [
        16u8,
        class,
        (len / 256) as u8,
        (len % 256) as u8,
        (tag / 16_777_216) as u8,
        (tag / 65_536 % 256) as u8,
        (tag / 256 % 256) as u8,
        (tag % 256) as u8,
    ]
}

// The record of a kind.
fn record_of(kind: u8, a: u8, b: u32, c: u16) -> [u8; 8]
    ensures { result ≡ record_of kind a b c }
{
    match kind {
        1 => inner_record(a, b),
        2 => leaf_record(a, b, c),
        3 => [3u8, a, 0, 0, 0, 0, 0, 0],
        16 => arrival_record(a, c, b),
        _ => [kind, 0, 0, 0, 0, 0, 0, 0],
    }
}

// Its bytes.
fn record_length(kind: u8) -> u32
    ensures { result ≡ length_of kind }
{
    match kind {
        0 => 1,
        1 => 6,
        2 => 8,
        3 => 2,
        16 => 8,
        17 => 1,
        _ => 0,
    }
}

// Lays the record of a kind, and answers its bytes: a planner's row or an event, for the readers to judge.
#[unsafe(no_mangle)]
pub extern "C" fn page_record(kind: u8, a: u8, b: u32, c: u16, out: &mut [u8; 8]) -> u32
    ensures { (out.new ≡ record_of kind a b c) × (result ≡ length_of kind) }
{
    *out = record_of(kind, a, b, c);
    record_length(kind)
}

// ---- A plan read, written and mended

// The rule of a tree as a number.
fn rule_of(follows: bool) -> u64
    ensures { result ≡ rule_of follows }
{
    if follows { 2 } else { 1 }
}

// The three numbers of a tree.
fn numbers_of(tree: Tree) -> [u64; 3]
    ensures { result ≡ numbers_of tree }
{
    [tree.count as u64, tree.leaves, rule_of(tree.follows)]
}

// The tree that a page's numbers make up.
fn tree_of(numbers: &[u64; 3], parent: &[u8; 64], weight: &[u32; 64], longest: &[u16; 64]) -> Tree
    ensures { result ≡ tree_of numbers.now parent.now weight.now longest.now }
{
    let weight = weights::weights_of(weight);
    let parent = *parent;
    let longest = *longest;
    let follows = numbers[2] == 2;
    Tree {
        count: numbers[0] as usize,
        leaves: numbers[1],
        parent,
        weight,
        longest,
        follows,
    }
}

// Reads a plan: the refusal's number; number, place and bytes used; its tree and Q.
#[unsafe(no_mangle)]
pub extern "C" fn page_open(
    input: &[u8],
    said: &mut [u64; 3],
    numbers: &mut [u64; 3],
    size: &mut [u64; 1],
    parent: &mut [u8; 64],
    weight: &mut [u32; 64],
    longest: &mut [u16; 64],
) -> u32
    ensures { Opens input.now result said.new numbers.new size.new parent.new
        weight.new longest.new }
{
    let read = plan::read_plan(input);
    let tree = read.tree;
    let q = shape::plan_size(tree).unwrap_or(Bytes(0));
    *size = [q.0];
    *numbers = numbers_of(tree);
    // Each array is named before it is stored: a field that is one, stored straight, has no proof.
    let p = tree.parent;
    *parent = p;
    let w = tree.weight;
    *weight = weights::weight_numbers(w);
    let l = tree.longest;
    *longest = l;
    let verdict = read.verdict;
    *said = said_of(verdict, read.used);
    u32::from(checks::number(verdict))
}

// Writes the tree that a page's numbers make up: the refusal's number; number, place and bytes written; the bytes into the buffer.
#[unsafe(no_mangle)]
pub extern "C" fn page_write(
    numbers: &[u64; 3],
    parent: &[u8; 64],
    weight: &[u32; 64],
    longest: &[u16; 64],
    said: &mut [u64; 3],
    out: &mut [u8],
) -> u32
    ensures { WritesTree (tree_of numbers.now parent.now weight.now longest.now)
        out.old result said.new out.new }
{
    let tree = tree_of(numbers, parent, weight, longest);
    let written = written::write_plan(tree, out);
    let verdict = written.verdict;
    *said = said_of(verdict, written.used);
    u32::from(checks::number(verdict))
}

// The changes as three tables.
fn classes_of(changes: [Change; Tree::CLASSES]) -> [u64; 64]
    ensures { result ≡ table (class_at changes) 64 }
{
    changes.map(|change| change.class as u64)
}

fn olds_of(changes: [Change; Tree::CLASSES]) -> [u64; 64]
    ensures { result ≡ table (old_at changes) 64 }
{
    changes.map(|change| u64::from(change.old.0))
}

fn news_of(changes: [Change; Tree::CLASSES]) -> [u64; 64]
    ensures { result ≡ table (new_at changes) 64 }
{
    changes.map(|change| u64::from(change.new.0))
}

// Mends a plan: the refusal's number; number, place and bytes used; how many weights change, their classes, old and new.
#[unsafe(no_mangle)]
pub extern "C" fn page_mend(
    input: &[u8],
    said: &mut [u64; 3],
    count: &mut [u64; 1],
    class: &mut [u64; 64],
    old: &mut [u64; 64],
    new: &mut [u64; 64],
) -> u32
    ensures { MendsPlan input.now result said.new count.new class.new old.new
        new.new }
{
    let mended = mended::mend(input);
    let changes = mended.changes;
    let at = changes.at;
    *count = [changes.count as u64];
    *class = classes_of(at);
    *old = olds_of(at);
    *new = news_of(at);
    let verdict = mended.verdict;
    *said = said_of(verdict, mended.used);
    u32::from(checks::number(verdict))
}

// ---- Rates and waits

// The rates of a plan: the leaves' requests in; the refusal's number; number, place and the last class; requests, gets and left out.
#[unsafe(no_mangle)]
pub extern "C" fn page_rates(
    input: &[u8],
    capacity: u64,
    said: &mut [u64; 3],
    requests: &mut [u64; 64],
    gets: &mut [u64; 64],
    left: &mut [u64; 64],
) -> u32
    ensures { RatesOf input.now capacity requests.old result said.new requests.new
        gets.new left.new }
{
    let asked = *requests;
    let answer = asked::rates_of(input, capacity, asked);
    let allotted = answer.allotted;
    let r = allotted.requests;
    *requests = r;
    let g = allotted.gets;
    *gets = g;
    let u = allotted.unallotted;
    *left = u;
    let verdict = allotted.verdict;
    *said = said_of(verdict, answer.last);
    u32::from(checks::number(verdict))
}

// The longest waits of a leaf of a plan: the refusal's number; bytes alone and as the last of 32.
#[unsafe(no_mangle)]
pub extern "C" fn page_waits(input: &[u8], class: usize, bytes: &mut [u64; 2]) -> u32
    ensures { WaitsOf input.now class result bytes.new }
{
    let read = plan::read_plan(input);
    let waits = promised::leaf_waits(read.tree, class);
    let alone = waits.alone;
    let full = waits.full;
    let a = alone.bytes;
    let f = full.bytes;
    *bytes = [a.0, f.0];
    let verdict = alone.verdict;
    u32::from(checks::number(verdict))
}

// The bound of a packet that is accepted with D bytes in its queue, its own among them; 0 where none is promised.
#[unsafe(no_mangle)]
pub extern "C" fn page_bound(input: &[u8], class: usize, d: u64) -> u64
    ensures { BoundOf input.now class d result }
{
    let read = plan::read_plan(input);
    let promised = promised::longest_wait(read.tree, class, units::Bytes(d));
    let b = promised.bytes;
    b.0
}

// What a packet is charged.
#[unsafe(no_mangle)]
pub extern "C" fn page_charge(length: u16) -> u64
    ensures { result ≡ cost_of length }
{
    let charge = units::cost(length);
    charge.0
}

// ---- A run

// Lays the first line of a run, and answers its bytes.
#[unsafe(no_mangle)]
pub extern "C" fn page_begin(input: &[u8], out: &mut [u8; 112]) -> usize
    ensures { Lays (program_begins input.now).line out.old result out.new }
{
    let step = run::first(input);
    let line = step.line;
    lines::lay(line, out)
}

// What a part of a run gave, as numbers.
fn part_says(part: PartRun) -> [u64; 2]
    ensures { result ≡ part_says part }
{
    [part.laid as u64, u64::from(part.more)]
}

// The lines of the events after a step.
fn events_of(step: Step, input: &[u8], out: &mut [u8]) -> [u64; 2]
    ensures { EventsBy step.more step input.now out.old result out.new }
{
    if !step.more {
        return [0, 0];
    }
    part_says(parts::part(step.link, input, step.place, out))
}

// Lays the lines of a run's events, as many as the buffer has room for: bytes laid, and whether the run goes on.
#[unsafe(no_mangle)]
pub extern "C" fn page_events(input: &[u8], said: &mut [u64; 2], out: &mut [u8])
    ensures { Events input.now out.old said.new out.new }
{
    let step = run::first(input);
    *said = events_of(step, input, out);
}

// Lays the line of a class when a run has ended: why it is silent, or that it is no leaf; and answers its bytes.
#[unsafe(no_mangle)]
pub extern "C" fn page_why(input: &[u8], class: usize, out: &mut [u8; 112]) -> usize
    ensures { TellsWhy input.now class out.old result out.new }
{
    let end = desk::last_step(input);
    let link = end.link;
    let line = desk::line(link, class);
    lines::lay(line, out)
}
