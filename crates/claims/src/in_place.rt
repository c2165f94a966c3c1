// Entry after entry in place: the link lies in number arrays that are lent to the steps, and no entry is checked for soundness. It is not
// public: `part` decides first whether the link is sound. Named for specs/Steps. Serves demands 1 and 2.
ghost use Rattle.std.specs.Prelude.{true, ◌&&◌, ◌||◌, ◌≡◌, ◌+◌, ◌^◌, ◌<◌, leb, length};
ghost use Rattle.plan.specs.Entry.{entry_at, claim_uses, longest_entry};
ghost use Rattle.sound.specs.Sound.{SoundLink};
ghost use Rattle.shape.specs.Shape.{tree_in, Families};
ghost use Rattle.steps.specs.Fields.{link_at};
ghost use Rattle.steps.specs.Rounds.{Kept};
ghost use Rattle.claims.specs.Recording.{same_packet, same_claim};
ghost use Rattle.claims.specs.Steps.{packet_of, claim_of, did_go_on, did_decide, claim_did, Enterable, Enters, PartDone};

use crate::{Checked, Judged};
use checks::Refused;
use plan::entry::Entry;
use plan::{Arrived, Claim, EntryRead};
use state::{Link, Packet, Round, Totals};
use steps::{Stand, Went};

// How far a check has come beside the arrays: what the recording is judged to be so far, whether the check goes on, at which place, after
// how many claims, and where the link stands.
#[derive(Drop)]
pub struct Did {
    pub judged: Judged,
    pub more: bool,
    pub place: usize,
    pub claims: usize,
    pub stand: Stand,
}

// The check goes on.
fn goes_on(place: usize, claims: usize, stand: Stand) -> Did
    ensures { result ≡ did_go_on place claims stand }
{
    Did {
        judged: Judged::Good(claims),
        more: true,
        place,
        claims,
        stand,
    }
}

// The check has been decided.
fn decides(judged: Judged, place: usize, claims: usize, stand: Stand) -> Did
    ensures { result ≡ did_decide judged place claims stand }
{
    Did {
        judged,
        more: false,
        place,
        claims,
        stand,
    }
}

// Whether a packet's claim names the class, the length and the tag of what has gone.
fn same_packet(a: Arrived, went: Went) -> bool
    ensures { result ≡ same_packet a (packet_of went) }
{
    let packet = went.packet;
    usize::from(a.class) == went.class && a.length == packet.length && a.tag == packet.tag
}

// Whether a claim is the one that a send makes true.
fn same_claim(claim: Claim, went: Went) -> bool
    ensures { result ≡ same_claim claim (claim_of went) }
{
    let some = went.some;
    match claim {
        Some(a) => some && same_packet(a, went),
        None => !some,
    }
}

// The bytes of a send with its claim.
fn claim_uses(claim: Claim) -> usize
    ensures { result ≡ 1 + claim_uses claim }
{
    match claim {
        Some(_) => 9,
        None => 2,
    }
}

// A claim compared with what has gone: it is counted, or it decides, at its own place.
fn compared(claim: Claim, went: Went, place: usize, claims: usize) -> Did
    requires { (place + (1 + claim_uses claim) < 2 ^ 64) × (claims + 1 < 2 ^ 64) }
    ensures { result ≡ claim_did (same_claim claim (claim_of went)) claim went place claims }
{
    let stand = went.stand;
    if !same_claim(claim, went) {
        return decides(Judged::FalseAt(place + 1), place, claims, stand);
    }
    goes_on(place + claim_uses(claim), claims + 1, stand)
}

// The entry at the front of the rest of the input, on a sound link.
fn entry(
    did: Did,
    shape: &[u64; 195],
    children: &[u64; 64],
    kept: &mut [u32; 64],
    balance: &mut [u64; 64],
    residual: &mut [u64; 64],
    start: &mut [u8; 64],
    held: &mut [u8; 64],
    lengths: &mut [u16; 2048],
    tags: &mut [u32; 2048],
    marks: &mut [u64; 2048],
    packets: &mut [u64; 64],
    bytes: &mut [u64; 64],
    rest: &[u8],
) -> Did
    requires { Enterable (link_at true (tree_in shape.now) did.stand balance.old residual.old start.old held.old lengths.old
        tags.old
        marks.old packets.old bytes.old)
        × (did.place + length rest.now < 2 ^ 64) × (did.claims + length rest.now < 2 ^ 64)
        × Families (tree_in shape.now) children.now × Kept (tree_in shape.now) did.stand.known kept.old }
    ensures enters { Enters (link_at true (tree_in shape.now) did.stand balance.old residual.old
        start.old
        held.old lengths.old tags.old marks.old packets.old bytes.old)
        did.place did.claims (entry_at rest.now) result
        (link_at true (tree_in shape.now) result.stand balance.new residual.new start.new held.new
        lengths.new tags.new marks.new packets.new bytes.new) }
    ensures kept { Kept (tree_in shape.now) result.stand.known kept.new }
{
    let place = did.place;
    let claims = did.claims;
    let stand = did.stand;
    let read = plan::read_entry(rest);
    match read {
        Ok(None) => decides(Judged::Good(claims), place, claims, stand),
        Ok(Some(Entry::Arrives(a))) => {
            let packet = Packet {
                length: a.length,
                tag: a.tag,
            };
            steps::arrive(
                true,
                usize::from(a.class),
                packet,
                shape,
                start,
                held,
                lengths,
                tags,
                marks,
                stand.charged,
                packets,
                bytes,
            );
            goes_on(place + 8, claims, stand)
        }
        Ok(Some(Entry::Claims(c))) => {
            let went = steps::send(
                shape, children, kept, stand, balance, residual, start, held, lengths, tags, marks,
                packets, bytes,
            );
            compared(c, went, place, claims)
        }
        Err(refused) => {
            let Refused(refusal, k) = refused;
            let stop = Judged::Stop(Refused(refusal, place + k));
            decides(stop, place, claims, stand)
        },
    }
}

// Whether one entry more is judged, where so many bytes follow.
fn takes_one(more: bool, last: bool, left: usize) -> bool
    ensures { result ≡ (more && (last || leb longest_entry left)) }
{
    more && (last || 9 <= left)
}

// Entry after entry on a sound link: it is taken apart once, and put together once.
pub fn entries(link: Link, part: &[u8], place: usize, claims: usize, last: bool) -> Checked
    requires { SoundLink link × (place + length part.now < 2 ^ 64) × (claims + length part.now < 2 ^ 64) }
    ensures { PartDone last link place claims part.now result }
{
    let shape = shape::shape_of(link.tree);
    let children = shape::families(&shape);
    let mut kept = [0u32; 64];
    let before = link.round.accounts;
    let mut balance = state::lent_accounts::balances(before);
    let mut residual = state::lent_accounts::residuals(before);
    let mut start = link.start;
    let mut held = link.held;
    let mut lengths = link.lengths;
    let mut tags = link.tags;
    let mut marks = link.marks;
    let counted = link.totals;
    let mut packets = counted.packets;
    let mut bytes = counted.bytes;
    let stand = Stand {
        known: 0,
        size: link.round.size,
        active: link.round.active,
        place: link.round.place,
        charged: counted.charged,
    };
    let mut s = goes_on(place, claims, stand);
    while takes_one(s.more, last, part.len() - (s.place - place)) {
        let at = s.place - place;
        s = entry(
            s,
            &shape,
            &children,
            &mut kept,
            &mut balance,
            &mut residual,
            &mut start,
            &mut held,
            &mut lengths,
            &mut tags,
            &mut marks,
            &mut packets,
            &mut bytes,
            &part[at..],
        );
    }
    let accounts = state::lent_accounts::zipped(&balance, &residual);
    totals::work_out(true, &shape, &children, &mut packets, &mut bytes);
    let then = s.stand;
    let after = Link {
        lengths,
        tags,
        marks,
        start,
        held,
        totals: Totals {
            packets,
            bytes,
            charged: then.charged,
        },
        round: Round {
            size: then.size,
            active: then.active,
            place: then.place,
            accounts,
        },
        ..link
    };
    Checked {
        judged: s.judged,
        more: s.more,
        link: after,
        place: s.place,
        claims: s.claims,
    }
}
