// A part of a run: the link lies in number arrays that are lent to `answers::event`, event after event, and what each answers is laid as a
// line. No event is checked for soundness.
// It is not public: `part` decides first whether the link is sound. Serves demands 1 and 2.
ghost use Rattle.std.specs.Prelude.{true, ◌≡◌, ◌+◌, ◌≤◌, length};
ghost use Rattle.checks.specs.Check.{Exactly};
ghost use Rattle.tree.specs.Rules.{PlanRules};
ghost use Rattle.shape.specs.Shape.{tree_in, Families};
ghost use Rattle.lines.specs.Line.{line_room};
ghost use Rattle.sound.specs.Sound.{SoundLink};
ghost use Rattle.steps.specs.Rounds.{Kept};
ghost use Rattle.run.specs.Event.{arrival_says};
ghost use Rattle.parts.specs.Steps.{LaysLine, packet_with, gone_says, end_says, reply_says, Taken};

use crate::PartRun;
use answers::{Kind, Reply, event};
use checks::{Refused, Verdict};
use lines::Line;
use state::{Link, Round, Totals};
use steps::Stand;

// The line of an arrival.
fn lay_arrival(
    verdict: Verdict,
    class: u64,
    len: u64,
    tag: u64,
    bytes: u64,
    at: usize,
    out: &mut [u8],
) -> usize
    requires { at + line_room ≤ length out.old }
    ensures { LaysLine at (arrival_says verdict class (packet_with len tag) bytes) out.old result out.new }
{
    match verdict {
        Ok(()) => lines::lay_in(class, len, tag, bytes, at, out),
        Err(refused) => {
            let number = refused.0.number() as u64;
            lines::lay_at(Line::No(class, len, tag, number), at, out)
        },
    }
}

// The line of a send.
fn lay_send(
    verdict: Verdict,
    class: u64,
    len: u64,
    tag: u64,
    rounds: u64,
    waited: u64,
    at: usize,
    out: &mut [u8],
) -> usize
    requires { at + line_room ≤ length out.old }
    ensures { LaysLine at (gone_says verdict class len tag rounds waited) out.old result out.new }
{
    match verdict {
        Ok(()) => lines::lay_out(class, len, tag, rounds, waited, at, out),
        Err(_) => lines::lay_at(Line::Nothing, at, out),
    }
}

// The last line: of the input's end, or of a malformed record.
fn lay_last(verdict: Verdict, waiting: u64, at: usize, out: &mut [u8]) -> usize
    requires { at + line_room ≤ length out.old }
    ensures { LaysLine at (end_says verdict waiting) out.old result out.new }
{
    match verdict {
        Ok(()) => lines::lay_at(Line::End(waiting), at, out),
        Err(refused) => lines::lay_at(run::stop_line(refused), at, out),
    }
}

// The line of an event is laid: of an arrival, of a send, or the last one, with the packets that still wait.
fn lay_reply(reply: Reply, waiting: u64, at: usize, out: &mut [u8]) -> usize
    requires { at + line_room ≤ length out.old }
    ensures { LaysLine at (reply_says reply waiting) out.old result out.new }
{
    let verdict = reply.verdict;
    match reply.kind {
        Kind::Arrival => lay_arrival(
            verdict,
            reply.class,
            reply.length,
            reply.tag,
            reply.bytes,
            at,
            out,
        ),
        Kind::Send => lay_send(
            verdict,
            reply.class,
            reply.length,
            reply.tag,
            reply.rounds,
            reply.bytes,
            at,
            out,
        ),
        Kind::Last | Kind::Other(_) => lay_last(verdict, waiting, at, out),
    }
}

// The sets of children of a sound record's classes; none of one that is not sound.
fn children_of(sound: bool, shape: &[u64; 195]) -> [u64; 64]
    requires { sound ≡ true → PlanRules (tree_in shape.now) }
    ensures { sound ≡ true → Families (tree_in shape.now) result }
{
    if !sound {
        return [0u64; 64];
    }
    shape::families(shape)
}

// The weight sums of the round that would open now are kept, and the active set that they are of is handed back; none of a record that is
// not sound.
fn sums_now(sound: bool, shape: &[u64; 195], held: &[u8; 64], kept: &mut [u32; 64]) -> u64
    requires { (sound ≡ true → PlanRules (tree_in shape.now)) × (length kept.old ≡ 64) }
    ensures { sound ≡ true → Kept (tree_in shape.now) result kept.new }
{
    if !sound {
        return 0;
    }
    let known = steps::round_active(shape, 0, held);
    steps::refresh(shape, known, kept);
    known
}

// A part on a record of which it is told whether it is sound: it is taken apart once, and put together once.
pub fn part_of(sound: bool, link: Link, input: &[u8], place: usize, out: &mut [u8]) -> PartRun
    requires { Exactly sound (SoundLink link) }
    ensures { Taken link input.now place out.old result out.new }
{
    let shape = shape::shape_of(link.tree);
    let children = children_of(sound, &shape);
    let mut kept = [0u32; 64];
    let before = link.round.accounts;
    let mut balance = state::lent_accounts::balances(before);
    let mut residual = state::lent_accounts::residuals(before);
    let mut start = link.start;
    let mut held = link.held;
    let mut lengths = link.lengths;
    let mut tags = link.tags;
    let mut marks = link.marks;
    let counted = link.totals;
    let mut packets = counted.packets;
    let mut bytes = counted.bytes;
    let known = sums_now(sound, &shape, &held, &mut kept);
    let stand = Stand {
        known,
        size: link.round.size,
        active: link.round.active,
        place: link.round.place,
        charged: counted.charged,
    };
    let none = event::last_reply(Ok(()));
    let mut run = event::outcome(sound, none, true, place, stand);
    let mut laid: usize = 0;
    while crate::takes_one(run.more, laid, out.len()) {
        run = event::event(
            run,
            &shape,
            &children,
            &mut kept,
            &mut balance,
            &mut residual,
            &mut start,
            &mut held,
            &mut lengths,
            &mut tags,
            &mut marks,
            &mut packets,
            &mut bytes,
            input,
        );
        laid = lay_reply(run.reply, packets[0], laid, out);
    }
    let accounts = state::lent_accounts::zipped(&balance, &residual);
    totals::work_out(sound, &shape, &children, &mut packets, &mut bytes);
    let then = run.stand;
    let after = Link {
        lengths,
        tags,
        marks,
        start,
        held,
        totals: Totals {
            packets,
            bytes,
            charged: then.charged,
        },
        round: Round {
            size: then.size,
            active: then.active,
            place: then.place,
            accounts,
        },
        ..link
    };
    PartRun {
        laid,
        more: run.more,
        link: after,
        place: run.place,
    }
}
