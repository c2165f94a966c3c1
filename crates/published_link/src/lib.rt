// The calls of the second engine: a fresh link from a plan's tree, an arrival and a send, by value, and whether a record is sound. Entries
// for callers outside: they ask nothing. An arrival is the first engine's.
// Serves demand 1 (numbers 11 to 15, a refused call hands the record back unaltered) and demand 2.
#![tactic(auto)]

ghost use Rattle.checks.specs.declared.Refusal.TheVariants.{NotSound};
ghost use Rattle.std.specs.Prelude.{◌≡◌, Err};
ghost use Rattle.checks.specs.Check.{Exactly, refusal_at};
ghost use Rattle.calls.specs.Arrival.{arrival_answer};
ghost use Rattle.calls.specs.Run.{arrival, send};
ghost use Rattle.calls.specs.Send.{refused_send, goes};
ghost use Rattle.published.specs.Contract.{MakesSecond, made_second, MeetsSecond};
ghost use Rattle.published.specs.Second.{SoundSecond};
ghost use Rattle.published_send.specs.Whole.{Ready};
ghost use Rattle.published_link.specs.Calls.{AskedIsRight, arrival_left, send_left, sent_of};

use asking::asked_right;
use calls::{Arrival, Departure};
use checks::{Refusal, Refused};
pub use published::{Second, SecondArrival, SecondFresh, SecondSend};
use published_send::Sent;
use state::lent_accounts::{balances, residuals, zipped};
use state::mark::since;
use state::{Link, Packet, Round, Totals};
use steps::Stand;
use tree::Tree;
use units::Bytes;

// A fresh link of a tree, any tree: the first engine's, in which no class has a quota.
pub fn fresh(tree: Tree) -> SecondFresh
    ensures { MakesSecond tree result }
{
    let made = link::fresh(tree);
    let verdict = made.verdict;
    SecondFresh {
        verdict,
        link: Second {
            link: made.link,
            asked: 0,
            quotas: [0u64; 64],
        },
    }
}

// Whether a record's tree obeys the plan rules and who has asked is right.
fn asked_is_right(second: Second) -> bool
    ensures { Exactly result (AskedIsRight second) }
{
    shape::is_plan(second.link.tree) && asked_right(second)
}

// Whether a link is sound, any record.
pub fn is_sound(second: Second) -> bool
    ensures { Exactly result (SoundSecond second) }
{
    sound::is_sound(second.link) && asked_right(second)
}

// An arrival on a record on which who has asked is not right: 11 at 0, and the very record.
fn arrival_stays(second: Second) -> SecondArrival
    ensures { result ≡ arrival_left (arrival_answer (Err (refusal_at NotSound 0)) 0) second }
{
    let verdict = Err(Refused(Refusal::NotSound, 0));
    let bytes = Bytes(0);
    let answer = Arrival { verdict, bytes };
    SecondArrival {
        answer,
        link: second,
    }
}

// An arrival: any class number, any length and any tag.
pub fn arrive(second: Second, class: usize, packet: Packet) -> SecondArrival
    ensures { MeetsSecond second (made_second (arrival class packet) result.answer result.link) }
{
    if !asked_is_right(second) {
        return arrival_stays(second);
    }
    let after = link::arrive(second.link, class, packet);
    let quotas = second.quotas;
    SecondArrival {
        answer: after.answer,
        link: Second {
            link: after.link,
            asked: second.asked,
            quotas,
        },
    }
}

// A refused send: the very record, and all other numbers 0.
fn send_stays(refusal: Refusal, second: Second) -> SecondSend
    ensures { result ≡ send_left (refused_send (Err (refusal_at refusal 0))) second }
{
    let verdict = Err(Refused(refusal, 0));
    let answer = Departure {
        verdict,
        class: 0,
        length: 0,
        tag: 0,
        rounds: 0,
        waited: 0,
    };
    SecondSend {
        answer,
        link: second,
    }
}

// The answer to a send that goes.
fn departure(sent: Sent) -> Departure
    ensures { result ≡ goes sent.class sent.packet sent.rounds sent.stand.charged }
{
    let packet = sent.packet;
    let verdict = Ok(());
    Departure {
        verdict,
        class: sent.class,
        length: packet.length,
        tag: packet.tag,
        rounds: sent.rounds,
        waited: since(sent.stand.charged, packet.mark),
    }
}

// A send on a sound link on which a packet waits: the link is taken apart and lent to the steps, and put together again.
fn goes(second: Second) -> SecondSend
    requires { Ready second }
    ensures { result ≡ sent_of second }
{
    let first = second.link;
    let tree = first.tree;
    let shape = shape::shape_of(tree);
    let children = shape::families(&shape);
    let mut kept = [0u32; 64];
    let accounts = first.round.accounts;
    let mut balance = balances(accounts);
    let mut residual = residuals(accounts);
    let mut quotas = second.quotas;
    let mut start = first.start;
    let mut held = first.held;
    let lengths = first.lengths;
    let tags = first.tags;
    let marks = first.marks;
    let had = first.totals;
    let mut packets = had.packets;
    let mut bytes = had.bytes;
    let stand = Stand {
        known: 0,
        size: first.round.size,
        active: first.round.active,
        place: first.round.place,
        charged: had.charged,
    };
    let sent = published_send::send(
        &shape,
        &children,
        &mut kept,
        stand,
        second.asked,
        &mut balance,
        &mut residual,
        &mut quotas,
        &mut start,
        &mut held,
        &lengths,
        &tags,
        &marks,
        &mut packets,
        &mut bytes,
    );
    let accounts_after = zipped(&balance, &residual);
    totals::work_out(true, &shape, &children, &mut packets, &mut bytes);
    let then = sent.stand;
    let after = Link {
        start,
        held,
        totals: Totals {
            packets,
            bytes,
            charged: then.charged,
        },
        round: Round {
            size: then.size,
            active: then.active,
            place: then.place,
            accounts: accounts_after,
        },
        ..first
    };
    let next = Second {
        link: after,
        asked: sent.asked,
        quotas,
    };
    SecondSend {
        answer: departure(sent),
        link: next,
    }
}

// A send: the root's total says whether a packet waits.
pub fn send(second: Second) -> SecondSend
    ensures { MeetsSecond second (made_second send result.answer result.link) }
{
    if !is_sound(second) {
        return send_stays(Refusal::NotSound, second);
    }
    if second.link.totals.packets[0] == 0 {
        return send_stays(Refusal::NothingWaits, second);
    }
    goes(second)
}
