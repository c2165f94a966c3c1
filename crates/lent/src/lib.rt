// The box's loop keeps one link record and lends it to both calls (R164): an arrival and a send behind `&mut`; and to what the panel asks
// (R280 to R282). Entries for callers outside: they ask nothing.
// Serves demands 1 and 2: the answer and the record at exit are those of the calls by value, by the same definitions.
#![tactic(auto)]

ghost use Rattle.std.specs.Prelude.{◌≡◌, length};
ghost use Rattle.calls.specs.Arrival.{arrival_leaves, Arrives};
ghost use Rattle.calls.specs.Panel.{TellsTotals, TellsClass};
ghost use Rattle.calls.specs.Send.{send_leaves, Sends};

use fields::{Arrival, ClassTotals, Departure, PanelTotals};
use state::{Account, Link, Packet};

// The lists of these parts of a lent record have the lengths of their arrays: it is told here, and no code.
fn told(packets: &[u64; 64], bytes: &[u64; 64], accounts: &[Account; 64])
    ensures packets { length packets.now ≡ 64 }
    ensures bytes { length bytes.now ≡ 64 }
    ensures accounts { length accounts.now ≡ 64 }
{}

// An arrival on a lent link: any class number, any length and any tag. A refused one leaves the record as it was.
pub fn arrive(link: &mut Link, class: usize, packet: Packet) -> Arrival
    ensures { Arrives link.old class packet (arrival_leaves result link.new) }
{
    told(
        &link.totals.packets,
        &link.totals.bytes,
        &link.round.accounts,
    );
    let placed = fields::arrive_in(
        link.tree,
        link.start,
        link.held,
        link.totals,
        link.round,
        &mut link.lengths,
        &mut link.tags,
        &mut link.marks,
        class,
        packet,
    );
    let held = placed.held;
    link.held = held;
    link.totals = placed.totals;
    placed.answer
}

// A send on a lent link. A refused one leaves the record as it was.
pub fn send(link: &mut Link) -> Departure
    ensures { Sends link.old (send_leaves result link.new) }
{
    told(
        &link.totals.packets,
        &link.totals.bytes,
        &link.round.accounts,
    );
    let went = fields::send_of(
        link.tree,
        link.start,
        link.held,
        link.totals,
        link.round,
        &link.lengths,
        &link.tags,
        &link.marks,
    );
    let start = went.start;
    let held = went.held;
    link.start = start;
    link.held = held;
    link.totals = went.totals;
    link.round = went.round;
    went.answer
}

// What the panel is told of a lent link: every class number's totals. The record stays as it is.
pub fn totals(link: &mut Link) -> PanelTotals
    ensures { TellsTotals link.old result × (link.new ≡ link.old) }
{
    fields::totals_of(
        link.tree,
        link.start,
        link.held,
        link.totals,
        link.round,
        &link.lengths,
    )
}

// And of one class number, any number.
pub fn class_totals(link: &mut Link, class: usize) -> ClassTotals
    ensures { TellsClass link.old class result × (link.new ≡ link.old) }
{
    fields::class_totals_of(
        link.tree,
        link.start,
        link.held,
        link.totals,
        link.round,
        &link.lengths,
        class,
    )
}
