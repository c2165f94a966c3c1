// Check another box's run (R295 to R307): a recording is a plan and its events, each send followed by a claim of what was sent. Entries for
// callers outside: they ask nothing.
// Serves demands 1 and 2: a recording is judged as specs/Recording says, whatever its bytes are.
#![tactic(auto)]

mod in_place;

ghost use Rattle.std.specs.Prelude.{◌≡◌, Ok};
ghost use Rattle.tree.specs.Rules.{PlanRules};
ghost use Rattle.claims.specs.Recording.{decides, goes_on, judged_of};
ghost use Rattle.claims.specs.Parts.{begins_with, check_begins, fits, JudgesPart};

use checks::{Refusal, Refused};
use plan::PlanRead;
use state::Link;

// What a recording is judged to be: good, with the number of its claims; the place of the first false claim; or a refusal's number and
// place.
// Three answers, one of them a refusal: a Result round the other two would be taken apart in each match that reads them.
#[derive(Clone, Copy)]
pub enum Judged {
    Good(usize),
    FalseAt(usize),
    Stop(Refused),
}

// How far a check has come: what the recording is judged to be so far, whether the check goes on, with which link, at which place, and how
// many claims were true. At a false claim the link is the one after its send.
#[derive(Clone, Copy)]
pub struct Checked {
    pub judged: Judged,
    pub more: bool,
    pub link: Link,
    pub place: usize,
    pub claims: usize,
}

// The check goes on.
fn goes_on(link: Link, place: usize, claims: usize) -> Checked
    ensures { result ≡ goes_on link place claims }
{
    Checked {
        judged: Judged::Good(claims),
        more: true,
        link,
        place,
        claims,
    }
}

// The check has been decided.
fn decides(judged: Judged, link: Link, place: usize, claims: usize) -> Checked
    ensures { result ≡ decides judged link place claims }
{
    Checked {
        judged,
        more: false,
        link,
        place,
        claims,
    }
}

// The largest place, and the largest number of claims.
const MOST: usize = 18_446_744_073_709_551_615;

// Whether no place and no number of claims within a part is past that.
fn fits(place: usize, claims: usize, n: usize) -> bool
    ensures { result ≡ fits place claims n }
{
    n <= MOST - place && n <= MOST - claims
}

// A part of a recording's entries, the last or not, from the link, the place and the claims that the part before it left. What it leaves of
// its bytes, fewer than an entry can have, goes before the next part.
pub fn part(link: Link, place: usize, claims: usize, bytes: &[u8], last: bool) -> Checked
    ensures { JudgesPart last link place claims bytes.now result }
{
    if !sound::is_sound(link) {
        return decides(
            Judged::Stop(Refused(Refusal::NotSound, 0)),
            link,
            place,
            claims,
        );
    }
    if !fits(place, claims, bytes.len()) {
        return goes_on(link, place, claims);
    }
    in_place::entries(link, bytes, place, claims, last)
}

// The fresh link of an accepted plan, and the place after it.
fn after_plan(read: PlanRead) -> Checked
    requires { PlanRules read.tree }
    ensures { result ≡ begins_with (Ok tt) read }
{
    let tree = read.tree;
    let fresh = link::fresh(tree);
    let link = fresh.link;
    goes_on(link, read.used, 0)
}

// How a check begins: any bytes at all, the first 514 of the recording or all of it, so that they hold the plan.
pub fn begin(input: &[u8]) -> Checked
    ensures { result ≡ check_begins input.now }
{
    let read = plan::read_plan(input);
    let verdict = read.verdict;
    match verdict {
        Ok(()) => after_plan(read),
        Err(refused) => decides(Judged::Stop(refused), Link::none(), 0, 0),
    }
}

// A whole recording: any bytes at all.
pub fn check(input: &[u8]) -> Judged
    ensures { result ≡ judged_of input.now }
{
    let begun = begin(input);
    if !begun.more {
        return begun.judged;
    }
    let link = begun.link;
    let rest = plan::events_after(input, begun.place);
    let checked = in_place::entries(link, rest, begun.place, 0, true);
    checked.judged
}
