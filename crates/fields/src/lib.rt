// An arrival, a send and the panel's reads over the fields of a link, with its waiting places lent: worked out once, here. Entries for
// callers outside: they ask nothing (R196). `lent` makes the calls on a lent link of them, and `link` the calls by value of those.
// Serves demand 1 (numbers 11 to 15, a refused call hands the record back unaltered) and demand 2.
#![tactic(auto)]

ghost use Rattle.checks.specs.declared.Refusal.TheVariants.{NotSound};
ghost use Rattle.checks.specs.Check.{refusal_at};
ghost use Rattle.std.specs.Prelude.{List, ◌≡◌, ℕ, Err};
ghost use Rattle.calls.specs.Panel.{TellsTotals, TellsClass};
ghost use Rattle.state.specs.State.{link_of};
ghost use Rattle.calls.specs.Send.{refused_send};
ghost use Rattle.shape.specs.Shape.{tree_in, Families};
ghost use Rattle.sound.specs.Steps.{link_in};
ghost use Rattle.steps.specs.Rounds.{InFields, went_answers};
ghost use Rattle.fields.specs.Fields.{ArrivesIn, changed_to, GoesIn, SendsIn, class_in};

pub use calls::{Arrival, ClassTotals, Departure, PanelTotals};
use checks::{Refusal, Refused};
use state::lent_accounts::{balances, residuals, zipped};
use state::mark::since;
use state::{Link, Packet, Round, Totals};
use steps::{Stand, Went};
use tree::Tree;
use units::Bytes;

// An arrival over the fields of a link: the packets held and the totals after it, and its answer. What may get a field stands last, here
// and below: the laws of a lent record (lent_parts/proofs/Fields) count bytes, and no other place moves then.
#[derive(Drop)]
pub struct Placed {
    pub held: [u8; Link::CLASSES],
    pub totals: Totals,
    pub answer: Arrival,
}

// A send over the fields of a link: the fields that it may change, and its answer.
#[derive(Drop)]
pub struct Changed {
    pub start: [u8; Link::CLASSES],
    pub held: [u8; Link::CLASSES],
    pub totals: Totals,
    pub answer: Departure,
    pub round: Round,
}

// An arrival over the fields of a link, with its waiting places lent: any class number, any length and any tag.
pub fn arrive_in<'a>(
    tree: Tree,
    start: [u8; Link::CLASSES],
    held: [u8; Link::CLASSES],
    totals: Totals,
    round: Round,
    lengths: &'a mut [u16; 2048],
    tags: &'a mut [u32; 2048],
    marks: &'a mut [u64; 2048],
    class: usize,
    packet: Packet,
) -> Placed
    ensures { ArrivesIn
        (link_of tree lengths.old tags.old marks.old start held totals round)
        class packet result.answer
        (link_of tree lengths.new tags.new marks.new start result.held result.totals round) }
{
    let shape = shape::shape_of(tree);
    let size = round.size;
    let accounts = round.accounts;
    let balance = balances(accounts);
    let residual = residuals(accounts);
    let mut children = [0u64; 64];
    let mut after = held;
    let mut packets = totals.packets;
    let mut bytes = totals.bytes;
    let sound = sound::is_sound_at(
        &shape,
        size,
        round.active,
        round.place,
        &balance,
        &residual,
        &start,
        &held,
        lengths,
        &packets,
        &bytes,
        &mut children,
    );
    let answer = steps::once::arrive(
        sound,
        class,
        packet,
        &shape,
        &children,
        &start,
        &mut after,
        lengths,
        tags,
        marks,
        totals.charged,
        &mut packets,
        &mut bytes,
    );
    Placed {
        held: after,
        totals: Totals {
            packets,
            bytes,
            charged: totals.charged,
        },
        answer,
    }
}

// A send on a record that is not sound: every field as it was, and all other numbers 0.
fn stays(
    start: [u8; Link::CLASSES],
    held: [u8; Link::CLASSES],
    totals: Totals,
    round: Round,
) -> Changed
    ensures { result ≡ changed_to (refused_send (Err (refusal_at NotSound 0))) start held totals round }
{
    Changed {
        start,
        held,
        totals,
        answer: refused(Refusal::NotSound),
        round,
    }
}

// What a refused send answers: its number, and all other numbers 0.
pub fn refused(refusal: Refusal) -> Departure
    ensures { result ≡ refused_send (Err (refusal_at refusal 0)) }
{
    let verdict = Err(Refused(refusal, 0));
    Departure {
        verdict,
        class: 0,
        length: 0,
        tag: 0,
        rounds: 0,
        waited: 0,
    }
}

// What a send answers on a sound link: the packet that goes, or that none waits.
pub fn answered(went: Went) -> Departure
    ensures { result ≡ went_answers went }
{
    if !went.some {
        return refused(Refusal::NothingWaits);
    }
    let packet = went.packet;
    let stand = went.stand;
    let verdict = Ok(());
    Departure {
        verdict,
        class: went.class,
        length: packet.length,
        tag: packet.tag,
        rounds: went.rounds,
        waited: since(stand.charged, packet.mark),
    }
}

// A send over the numbers of a sound link, which are lent to the steps, and its fields put together again. No weight sums are kept.
fn sends(
    shape: &[u64; 195],
    children: &[u64; 64],
    size: Bytes,
    active: u64,
    place: usize,
    balance: &mut [u64; 64],
    residual: &mut [u64; 64],
    start: [u8; Link::CLASSES],
    held: [u8; Link::CLASSES],
    lengths: &[u16; 2048],
    tags: &[u32; 2048],
    marks: &[u64; 2048],
    packets: &mut [u64; 64],
    bytes: &mut [u64; 64],
    charged: u64,
) -> Changed
    requires { InFields (link_in shape.now size active place balance.old residual.old start held lengths.now tags.now
        marks.now packets.old bytes.old charged) × Families (tree_in shape.now) children.now }
    ensures { GoesIn (link_in shape.now size active place balance.old residual.old start held
        lengths.now tags.now marks.now packets.old bytes.old charged) result }
{
    let mut kept = [0u32; 64];
    let mut first = start;
    let mut many = held;
    let stand = Stand {
        known: 0,
        size,
        active,
        place,
        charged,
    };
    let went = steps::once::send(
        shape, children, &mut kept, stand, balance, residual, &mut first, &mut many, lengths, tags,
        marks, packets, bytes,
    );
    let after = zipped(balance, residual);
    let packets_after = *packets;
    let bytes_after = *bytes;
    let then = went.stand;
    let size_after = then.size;
    let round = Round {
        size: size_after,
        active: then.active,
        place: then.place,
        accounts: after,
    };
    Changed {
        start: first,
        held: many,
        totals: Totals {
            packets: packets_after,
            bytes: bytes_after,
            charged: then.charged,
        },
        answer: answered(went),
        round,
    }
}

// A send over the fields of a link.
pub fn send_of<'a>(
    tree: Tree,
    start: [u8; Link::CLASSES],
    held: [u8; Link::CLASSES],
    totals: Totals,
    round: Round,
    lengths: &'a [u16; 2048],
    tags: &'a [u32; 2048],
    marks: &'a [u64; 2048],
) -> Changed
    ensures { SendsIn
        (link_of tree lengths.now tags.now marks.now start held totals round) result }
{
    let shape = shape::shape_of(tree);
    let size = round.size;
    let accounts = round.accounts;
    let mut balance = balances(accounts);
    let mut residual = residuals(accounts);
    let mut packets = totals.packets;
    let mut bytes = totals.bytes;
    let mut children = [0u64; 64];
    if !sound::is_sound_at(
        &shape,
        size,
        round.active,
        round.place,
        &balance,
        &residual,
        &start,
        &held,
        lengths,
        &packets,
        &bytes,
        &mut children,
    ) {
        return stays(start, held, totals, round);
    }
    sends(
        &shape,
        &children,
        size,
        round.active,
        round.place,
        &mut balance,
        &mut residual,
        start,
        held,
        lengths,
        tags,
        marks,
        &mut packets,
        &mut bytes,
        totals.charged,
    )
}

// What the panel is told of the link that these fields make up: every class number's totals. Its tags and its marks have no say.
pub fn totals_of(
    tree: Tree,
    start: [u8; Link::CLASSES],
    held: [u8; Link::CLASSES],
    totals: Totals,
    round: Round,
    lengths: &[u16; 2048],
) -> PanelTotals
    ensures { (tags marks : List ℕ)
        → TellsTotals (link_of tree lengths.now tags marks start held totals round) result }
{
    if !sound::is_sound_of(tree, start, held, totals, round, lengths) {
        let verdict = Err(Refused(Refusal::NotSound, 0));
        return PanelTotals {
            verdict,
            totals: Totals::none(),
        };
    }
    let verdict = Ok(());
    PanelTotals { verdict, totals }
}

// One class number's of them: any number, and 0 and 0 where it is past the table.
fn class_in(told: PanelTotals, class: usize) -> ClassTotals
    ensures { result ≡ class_in told class }
{
    let verdict = told.verdict;
    if Tree::MOST < class {
        return ClassTotals {
            verdict,
            packets: 0,
            bytes: Bytes(0),
        };
    }
    let totals = told.totals;
    let packets = totals.packets;
    let bytes = totals.bytes;
    ClassTotals {
        verdict,
        packets: packets[class],
        bytes: Bytes(bytes[class]),
    }
}

// What the panel is told of one class number, any number.
pub fn class_totals_of(
    tree: Tree,
    start: [u8; Link::CLASSES],
    held: [u8; Link::CLASSES],
    totals: Totals,
    round: Round,
    lengths: &[u16; 2048],
    class: usize,
) -> ClassTotals
    ensures { (tags marks : List ℕ)
        → TellsClass (link_of tree lengths.now tags marks start held totals round) class result }
{
    let told = totals_of(tree, start, held, totals, round, lengths);
    class_in(told, class)
}
