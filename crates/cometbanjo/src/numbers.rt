// The answers of the exported calls as numbers, and a packet out of the numbers of an arrival. Named for specs/Numbers.
// Serves demands 1 to 3.
ghost use Rattle.std.specs.Prelude.{◌≡◌, [], ◌∷◌};
ghost use Rattle.checks.specs.Check.{number_of};
ghost use Rattle.state.specs.declared.Link.{Link};
ghost use Rattle.calls.specs.Run.{arrival, send, made};
ghost use Rattle.reasons.specs.Answer.{told_verdict};
ghost use Rattle.answers.specs.Reply.{reply_to, row_of};
ghost use Rattle.page_calls.specs.Kept.{said_of};
ghost use Rattle.cometbanjo.specs.Numbers.{met_length, packet_of, offer_said, reason_number, lacking_of, why_said};

use answers::Kind;
use calls::{Arrival, Departure};
use checks::{Refused, Verdict};
use offered::Offered;
use reasons::{Reason, Silence};
use state::Packet;
use units::Bytes;

// The longest length that a packet can have.
const MOST: u32 = 65_535;

// The number of a verdict in eight bytes.
pub(crate) fn number_of(verdict: Verdict) -> u64
    ensures { result ≡ number_of verdict }
{
    checks::number(verdict) as u64
}

// A verdict and what was used or written.
pub(crate) fn said_of(verdict: Verdict, used: usize) -> [u64; 3]
    ensures { result ≡ said_of verdict used }
{
    let n = number_of(verdict);
    let p = checks::place(verdict);
    [n, p as u64, used as u64]
}

// Where a link stands.
pub(crate) fn four_of(size: Bytes, active: u64, place: usize, charged: u64) -> [u64; 4]
    ensures { result ≡ size.0 ∷ active ∷ place ∷ charged ∷ [] }
{
    [size.0, active, place as u64, charged]
}

// A length as it is met.
fn met(length: u32) -> u16
    ensures { result ≡ met_length length }
{
    if MOST < length {
        return MOST as u16;
    }
    length as u16
}

// The packet of an arrival.
pub(crate) fn packet_of(length: u32, tag: u32) -> Packet
    ensures { result ≡ packet_of length tag }
{
    Packet {
        length: met(length),
        tag,
    }
}

// The answer of an arrival, and of a send.
pub(crate) fn arrival_row(class: usize, packet: Packet, came: Arrival) -> [u64; 8]
    ensures { (after : Link) → result ≡ row_of (reply_to (made (arrival class packet) came after)) }
{
    let verdict = came.verdict;
    let number = number_of(verdict);
    let place = checks::place(verdict) as u64;
    let bytes = came.bytes;
    [
        Kind::Arrival.number(),
        number,
        place,
        class as u64,
        packet.length as u64,
        packet.tag as u64,
        bytes.0,
        0,
    ]
}

pub(crate) fn send_row(went: Departure) -> [u64; 8]
    ensures { (after : Link) → result ≡ row_of (reply_to (made send went after)) }
{
    let verdict = went.verdict;
    let n = number_of(verdict);
    let p = checks::place(verdict) as u64;
    [
        Kind::Send.number(),
        n,
        p,
        went.class as u64,
        went.length as u64,
        went.tag as u64,
        went.waited,
        went.rounds as u64,
    ]
}

// An offer.
pub(crate) fn offer_said(offered: Offered) -> [u64; 4]
    ensures { result ≡ offer_said offered }
{
    let verdict = offered.verdict;
    let number = number_of(verdict);
    let place = checks::place(verdict) as u64;
    let bytes = offered.bytes;
    let wait = offered.wait;
    [number, place, bytes.0, wait.0]
}

// A reason, and the bytes lacking.
fn reason_number(reason: Reason) -> u64
    ensures { result ≡ reason_number reason }
{
    match reason {
        Reason::Empty => 1,
        Reason::Waits => 2,
        Reason::Short(_) => 3,
        Reason::Due => 4,
    }
}

fn lacking(reason: Reason) -> u64
    ensures { result ≡ lacking_of reason }
{
    match reason {
        Reason::Empty => 0,
        Reason::Waits => 0,
        Reason::Short(b) => b.0,
        Reason::Due => 0,
    }
}

// Why a class is silent.
pub(crate) fn why_said(silence: Silence) -> [u64; 4]
    ensures { result ≡ why_said silence }
{
    match silence {
        Ok(reason) => [0, 0, reason_number(reason), lacking(reason)],
        Err(refused) => {
            let Refused(refusal, place) = refused;
            [refusal.number() as u64, place as u64, 0, 0]
        },
    }
}

pub(crate) fn why_number(silence: Silence) -> u64
    ensures { result ≡ number_of (told_verdict silence) }
{
    match silence {
        Ok(_) => 0,
        Err(refused) => refused.0.number() as u64,
    }
}
