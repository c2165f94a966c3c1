// The library for a box in C or Rust: the calls on a link that lies in number arrays of the caller's, and on a plan's bytes (module plans).
// Each says what the library says of the same link (specs/Calls), and no exported function asks anything of its caller.
// Serves demands 1 to 3: R346 to R348, R350 to R352.
#![tactic(auto)]

mod numbers;
mod offer;
mod plans;
mod silent;

ghost use Rattle.std.specs.Prelude.{◌≡◌, List, ℕ};
ghost use Rattle.checks.specs.Check.{Exactly};
ghost use Rattle.sound.specs.Sound.{SoundLink};
ghost use Rattle.answers.specs.Burst.{link_in};
ghost use Rattle.cometbanjo.specs.Numbers.{link_bytes};
ghost use Rattle.cometbanjo.specs.Calls.{CallOpens, CallArrives, CallSends, CallTotals, CallOffers, CallWhy};

use answers::call;
use checks::Refusal;
use numbers::{
    arrival_row, four_of, number_of, offer_said, packet_of, said_of, send_row, why_number, why_said,
};
pub use plans::{cb_bound, cb_mend, cb_rates, cb_waits, cb_write_fields};
use state::lent_accounts::{balances, residuals};

// Which calls and which arrays these are: another number when one of them changes.
pub const VERSION: u64 = 1;

// Bytes of a link in its arrays.
pub const LINK_BYTES: u64 = 32_440;

#[unsafe(no_mangle)]
pub extern "C" fn cb_version() -> u64
    ensures { result ≡ 1 }
{
    VERSION
}

#[unsafe(no_mangle)]
pub extern "C" fn cb_link_bytes() -> u64
    ensures { result ≡ link_bytes }
{
    LINK_BYTES
}

// ---- A link is made

// Reads a plan and lays its fresh link: the refusal's number; number, place and bytes used. A refused plan lays the link without classes:
// every call on it gives 11.
#[unsafe(no_mangle)]
pub extern "C" fn cb_open_fields(
    plan: &[u8],
    shape: &mut [u64; 195],
    stand: &mut [u64; 4],
    balance: &mut [u64; 64],
    residual: &mut [u64; 64],
    start: &mut [u8; 64],
    held: &mut [u8; 64],
    lengths: &mut [u16; 2048],
    tags: &mut [u32; 2048],
    marks: &mut [u64; 2048],
    packets: &mut [u64; 64],
    bytes: &mut [u64; 64],
    said: &mut [u64; 3],
) -> u64
    ensures { CallOpens plan.now result said.new (link_in shape.new stand.new
        balance.new residual.new start.new held.new lengths.new tags.new
        marks.new packets.new bytes.new) }
{
    let read = plan::read_plan(plan);
    let made = link::fresh(read.tree);
    let link = made.link;
    let tree = link.tree;
    *shape = shape::shape_of(tree);
    let totals = link.totals;
    *stand = four_of(
        link.round.size,
        link.round.active,
        link.round.place,
        totals.charged,
    );
    let accounts = link.round.accounts;
    *balance = balances(accounts);
    *residual = residuals(accounts);
    let first = link.start;
    *start = first;
    let many = link.held;
    *held = many;
    let long = link.lengths;
    *lengths = long;
    let tagged = link.tags;
    *tags = tagged;
    let marked = link.marks;
    *marks = marked;
    let waiting = totals.packets;
    *packets = waiting;
    let charged = totals.bytes;
    *bytes = charged;
    let verdict = read.verdict;
    *said = said_of(verdict, read.used);
    number_of(verdict)
}

// ---- Calls on it

// An arrival: the refusal's number; the answer as eight numbers.
#[unsafe(no_mangle)]
pub extern "C" fn cb_arrive_fields(
    shape: &[u64; 195],
    stand: &[u64; 4],
    balance: &[u64; 64],
    residual: &[u64; 64],
    start: &[u8; 64],
    held: &mut [u8; 64],
    lengths: &mut [u16; 2048],
    tags: &mut [u32; 2048],
    marks: &mut [u64; 2048],
    packets: &mut [u64; 64],
    bytes: &mut [u64; 64],
    class: usize,
    length: u32,
    tag: u32,
    answer: &mut [u64; 8],
) -> u64
    ensures { CallArrives (link_in shape.now stand.now balance.now residual.now
        start.now held.old lengths.old tags.old marks.old packets.old bytes.old) class length tag result answer.new (link_in shape.now stand.now
        balance.now residual.now start.now held.new lengths.new
        tags.new marks.new packets.new bytes.new) }
{
    let packet = packet_of(length, tag);
    let came = call::arrive(
        shape, stand, balance, residual, start, held, lengths, tags, marks, packets, bytes, class,
        packet,
    );
    *answer = arrival_row(class, packet, came);
    let verdict = came.verdict;
    number_of(verdict)
}

// A send.
#[unsafe(no_mangle)]
pub extern "C" fn cb_send_fields(
    shape: &[u64; 195],
    stand: &mut [u64; 4],
    balance: &mut [u64; 64],
    residual: &mut [u64; 64],
    start: &mut [u8; 64],
    held: &mut [u8; 64],
    lengths: &[u16; 2048],
    tags: &[u32; 2048],
    marks: &[u64; 2048],
    packets: &mut [u64; 64],
    bytes: &mut [u64; 64],
    answer: &mut [u64; 8],
) -> u64
    ensures { CallSends (link_in shape.now stand.old balance.old residual.old
        start.old held.old lengths.now tags.now marks.now packets.old
        bytes.old) result answer.new (link_in shape.now stand.new balance.new
        residual.new start.new held.new lengths.now tags.now marks.now
        packets.new bytes.new) }
{
    let went = call::send(
        shape, stand, balance, residual, start, held, lengths, tags, marks, packets, bytes,
    );
    *answer = send_row(went);
    let verdict = went.verdict;
    number_of(verdict)
}

// ---- What is asked of it

// Whether the link in the arrays is sound, whatever its tags and marks.
fn sound_in(
    shape: &[u64; 195],
    stand: &[u64; 4],
    balance: &[u64; 64],
    residual: &[u64; 64],
    start: &[u8; 64],
    held: &[u8; 64],
    lengths: &[u16; 2048],
    packets: &[u64; 64],
    bytes: &[u64; 64],
) -> bool
    ensures { (tags marks : List ℕ) → Exactly result (SoundLink (link_in shape.now stand.now balance.now residual.now start.now held.now lengths.now tags marks
        packets.now bytes.now)) }
{
    let mut children = [0u64; 64];
    let at = answers::stand_in(stand);
    sound::is_sound_at(
        shape,
        at.size,
        at.active,
        at.place,
        balance,
        residual,
        start,
        held,
        lengths,
        packets,
        bytes,
        &mut children,
    )
}

// Whether the totals in the arrays are the link's: 0, or 11 where the record is not sound.
#[unsafe(no_mangle)]
pub extern "C" fn cb_totals_fields(
    shape: &[u64; 195],
    stand: &[u64; 4],
    balance: &[u64; 64],
    residual: &[u64; 64],
    start: &[u8; 64],
    held: &[u8; 64],
    lengths: &[u16; 2048],
    packets: &[u64; 64],
    bytes: &[u64; 64],
) -> u64
    ensures { CallTotals (λ tags marks. link_in shape.now stand.now balance.now
        residual.now start.now held.now lengths.now tags marks packets.now
        bytes.now) result }
{
    if sound_in(
        shape, stand, balance, residual, start, held, lengths, packets, bytes,
    ) {
        return 0;
    }
    Refusal::NotSound.number() as u64
}

// What a packet would be promised if it came now: the refusal's number; number, place, D and the bound.
#[unsafe(no_mangle)]
pub extern "C" fn cb_offer_fields(
    shape: &[u64; 195],
    stand: &[u64; 4],
    balance: &[u64; 64],
    residual: &[u64; 64],
    start: &[u8; 64],
    held: &[u8; 64],
    lengths: &[u16; 2048],
    tags: &[u32; 2048],
    marks: &[u64; 2048],
    packets: &[u64; 64],
    bytes: &[u64; 64],
    class: usize,
    length: u32,
    said: &mut [u64; 4],
) -> u64
    ensures { CallOffers (link_in shape.now stand.now balance.now residual.now
        start.now held.now lengths.now tags.now marks.now
        packets.now bytes.now) class length result said.new }
{
    let packet = packet_of(length, 0);
    let offered = offer::if_accepted(
        shape,
        stand,
        balance,
        residual,
        start,
        held,
        lengths,
        tags,
        marks,
        packets,
        bytes,
        class,
        packet.length,
    );
    *said = offer_said(offered);
    let verdict = offered.verdict;
    number_of(verdict)
}

// Why a class is silent: the refusal's number; number, place, reason and the bytes lacking.
#[unsafe(no_mangle)]
pub extern "C" fn cb_why_fields(
    shape: &[u64; 195],
    stand: &[u64; 4],
    balance: &[u64; 64],
    residual: &[u64; 64],
    start: &[u8; 64],
    held: &[u8; 64],
    lengths: &[u16; 2048],
    tags: &[u32; 2048],
    marks: &[u64; 2048],
    packets: &[u64; 64],
    bytes: &[u64; 64],
    class: usize,
    said: &mut [u64; 4],
) -> u64
    ensures { CallWhy (link_in shape.now stand.now balance.now residual.now
        start.now held.now lengths.now tags.now marks.now packets.now
        bytes.now) class result said.new }
{
    let silence = silent::why(
        shape, stand, balance, residual, start, held, lengths, tags, marks, packets, bytes, class,
    );
    *said = why_said(silence);
    why_number(silence)
}
