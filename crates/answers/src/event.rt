// The event at a place of a run's input, on a link that lies in lent number arrays: what it answers, as numbers. Every run of many events
// is made of this one step, and no event is checked for soundness: whether the link is sound is told once. Serves demands 1 and 2.
ghost use Rattle.std.specs.Prelude.{true, ◌≡◌};
ghost use Rattle.tree.specs.Rules.{PlanRules};
ghost use Rattle.shape.specs.Shape.{tree_in, Families};
ghost use Rattle.state.specs.declared.Link.{Link};
ghost use Rattle.totals.specs.WorkedOut.{totals_for, Roomy};
ghost use Rattle.steps.specs.Arrivals.{lent_waiting, TakesOn};
ghost use Rattle.steps.specs.Fields.{link_at};
ghost use Rattle.steps.specs.Rounds.{Kept};
ghost use Rattle.answers.specs.Reply.{last_reply};
ghost use Rattle.answers.specs.Steps.{arrived_with, ArrivesAs, why_nothing, went_replies, DepartsAs, heard_by, Told, Hears};

use crate::{Kind, Reply};
use checks::{Refusal, Refused, Verdict};
use plan::EventRead;
use plan::event::Event;
use state::Packet;
use state::mark::since;
use steps::{Stand, Went};

// How far a run has come beside the arrays: whether its link is sound, what the last event answered, whether the run goes on and at which
// place of the input, and where the link stands.
#[derive(Clone, Copy)]
pub struct Heard {
    pub sound: bool,
    pub reply: Reply,
    pub more: bool,
    pub place: usize,
    pub stand: Stand,
}

// What an event gives, as one record.
pub fn outcome(sound: bool, reply: Reply, more: bool, place: usize, stand: Stand) -> Heard
    ensures { result ≡ heard_by sound reply more place stand }
{
    Heard {
        sound,
        reply,
        more,
        place,
        stand,
    }
}

// The reply of an event that is no call: the input ends, or its record is malformed.
pub fn last_reply(verdict: Verdict) -> Reply
    ensures { result ≡ last_reply verdict }
{
    Reply {
        kind: Kind::Last,
        verdict,
        class: 0,
        length: 0,
        tag: 0,
        bytes: 0,
        rounds: 0,
    }
}

// An arrival is judged, and put where it is taken.
fn arrives(
    sound: bool,
    class: u8,
    len: u16,
    tag: u32,
    shape: &[u64; 195],
    start: &[u8; 64],
    held: &mut [u8; 64],
    lengths: &mut [u16; 2048],
    tags: &mut [u32; 2048],
    marks: &mut [u64; 2048],
    charged: u64,
    packets: &mut [u64; 64],
    bytes: &mut [u64; 64],
) -> Reply
    requires { sound ≡ true → PlanRules (tree_in shape.now)
        × Roomy (totals_for true (tree_in shape.now) packets.old bytes.old charged) }
    ensures { (l : Link) → l.tree ≡ tree_in shape.now
        → (sound ≡ true → TakesOn (lent_waiting l start.now held.old lengths.old tags.old
        marks.old (totals_for sound (tree_in shape.now) packets.old bytes.old charged)))
        → ArrivesAs sound (lent_waiting l start.now held.old lengths.old tags.old
        marks.old (totals_for sound (tree_in shape.now) packets.old bytes.old charged))
        (arrived_with class len tag) result
        (lent_waiting l start.now held.new lengths.new tags.new marks.new
        (totals_for sound (tree_in shape.now) packets.new bytes.new charged)) }
{
    let answer = steps::arrive(
        sound,
        usize::from(class),
        Packet { length: len, tag },
        shape,
        start,
        held,
        lengths,
        tags,
        marks,
        charged,
        packets,
        bytes,
    );
    let verdict = answer.verdict;
    Reply {
        kind: Kind::Arrival,
        verdict,
        class: u64::from(class),
        length: u64::from(len),
        tag: u64::from(tag),
        bytes: answer.bytes.0,
        rounds: 0,
    }
}

// A send; on a record that is not sound it is refused, and nothing changes.
fn departs(
    sound: bool,
    shape: &[u64; 195],
    children: &[u64; 64],
    kept: &mut [u32; 64],
    stand: Stand,
    balance: &mut [u64; 64],
    residual: &mut [u64; 64],
    start: &mut [u8; 64],
    held: &mut [u8; 64],
    lengths: &[u16; 2048],
    tags: &[u32; 2048],
    marks: &[u64; 2048],
    packets: &mut [u64; 64],
    bytes: &mut [u64; 64],
) -> Went
    requires { Told sound (link_at sound (tree_in shape.now) stand balance.old residual.old start.old held.old lengths.now
        tags.now
        marks.now packets.old bytes.old)
        × (sound ≡ true → Families (tree_in shape.now) children.now × Kept (tree_in shape.now) stand.known kept.old) }
    ensures departs_as { DepartsAs sound (link_at sound (tree_in shape.now) stand balance.old residual.old
        start.old
        held.old lengths.now tags.now marks.now packets.old bytes.old)
        result (link_at sound (tree_in shape.now) result.stand balance.new residual.new start.new
        held.new
        lengths.now tags.now marks.now packets.new bytes.new) }
    ensures kept { sound ≡ true → Kept (tree_in shape.now) result.stand.known kept.new }
{
    if !sound {
        return steps::nothing(stand);
    }
    steps::send(
        shape, children, kept, stand, balance, residual, start, held, lengths, tags, marks,
        packets, bytes,
    )
}

// Why a send sends nothing: the record is not sound, or no packet waits.
fn refusal(sound: bool) -> Verdict
    ensures { result ≡ why_nothing sound }
{
    if sound {
        return Err(Refused(Refusal::NothingWaits, 0));
    }
    Err(Refused(Refusal::NotSound, 0))
}

// The reply of a send: the packet that goes, or why none does.
fn replied(sound: bool, went: Went) -> Reply
    ensures { result ≡ went_replies sound went }
{
    if !went.some {
        return Reply {
            kind: Kind::Send,
            verdict: refusal(sound),
            class: 0,
            length: 0,
            tag: 0,
            bytes: 0,
            rounds: 0,
        };
    }
    let packet = went.packet;
    let stand = went.stand;
    let verdict = Ok(());
    Reply {
        kind: Kind::Send,
        verdict,
        class: went.class as u64,
        length: u64::from(packet.length),
        tag: u64::from(packet.tag),
        bytes: since(stand.charged, packet.mark),
        rounds: went.rounds as u64,
    }
}

// The event at a place of the input, where it is told whether the link is sound.
pub fn event(
    run: Heard,
    shape: &[u64; 195],
    children: &[u64; 64],
    kept: &mut [u32; 64],
    balance: &mut [u64; 64],
    residual: &mut [u64; 64],
    start: &mut [u8; 64],
    held: &mut [u8; 64],
    lengths: &mut [u16; 2048],
    tags: &mut [u32; 2048],
    marks: &mut [u64; 2048],
    packets: &mut [u64; 64],
    bytes: &mut [u64; 64],
    input: &[u8],
) -> Heard
    requires { Told run.sound (link_at run.sound (tree_in shape.now) run.stand balance.old residual.old start.old
        held.old
        lengths.old tags.old
        marks.old packets.old bytes.old)
        × (run.sound ≡ true → Families (tree_in shape.now) children.now × Kept (tree_in shape.now) run.stand.known kept.old) }
    ensures hears { Hears run.sound (link_at run.sound (tree_in shape.now) run.stand balance.old residual.old
        start.old held.old lengths.old tags.old marks.old packets.old
        bytes.old) input.now run.place result
        (link_at result.sound (tree_in shape.now) result.stand balance.new residual.new start.new
        held.new
        lengths.new tags.new marks.new packets.new bytes.new) }
    ensures kept { run.sound ≡ true → Kept (tree_in shape.now) result.stand.known kept.new }
{
    let sound = run.sound;
    let place = run.place;
    let stand = run.stand;
    let read = plan::event_at(input, place);
    let after = place + plan::used(read);
    match read {
        Ok(None) => outcome(sound, last_reply(Ok(())), false, place, stand),
        Ok(Some(Event::Arrive(a))) => {
            let reply = arrives(
                sound,
                a.class,
                a.length,
                a.tag,
                shape,
                start,
                held,
                lengths,
                tags,
                marks,
                stand.charged,
                packets,
                bytes,
            );
            outcome(sound, reply, true, after, stand)
        }
        Ok(Some(Event::SendNext)) => {
            let went = departs(
                sound, shape, children, kept, stand, balance, residual, start, held, lengths, tags,
                marks, packets, bytes,
            );
            outcome(sound, replied(sound, went), true, after, went.stand)
        }
        Err(refused) => outcome(sound, last_reply(Err(refused)), false, place, stand),
    }
}
