// The run without text: what the calls of a run answer, each as eight numbers in a lent buffer, on a link that lies in number arrays of the
// caller's. `burst` is an entry for callers outside: it asks nothing, and decides once whether the link is sound; the step below it,
// `event`, is for the runs of the library alone. Serves demands 1 and 2: R339 to R344.
#![tactic(auto)]

pub mod call;
pub mod event;
pub mod lent_arrays;
mod other_kind;
pub mod row;

ghost use Rattle.checks.specs.declared.Refusal.TheVariants.{NotSound};
ghost use Rattle.checks.specs.Check.{refusal_at};
ghost use Rattle.std.specs.Prelude.{true, ◌&&◌, ◌≡◌, ◌+◌, ◌≤◌, leb, length, Err};
ghost use Rattle.shape.specs.Shape.{tree_in, Families};
ghost use Rattle.steps.specs.Fields.{link_at};
ghost use Rattle.answers.specs.Burst.{stand_in, four_of, link_in, Bursts};
ghost use Rattle.answers.specs.Reply.{kind_number};
ghost use Rattle.answers.specs.Steps.{Laid, ended_by, Told, Served};

use checks::{Refusal, Refused, Verdict};
use event::Heard;
pub use other_kind::OtherKind;
use row::ROW;
use state::Link;
use steps::Stand;
use units::Bytes;

// The kind of the event that a reply answers, by its number in a row (R339): the last event is no call, for the input ends or its record is
// malformed.
#[derive(Clone, Copy, Debug, PartialEq, Eq)]
pub enum Kind {
    Last,
    Arrival,
    Send,
    // What a caller made up: no event has it.
    Other(OtherKind),
}

impl Kind {
    // Its number.
    pub fn number(self) -> u64
        ensures { result ≡ kind_number self }
    {
        match self {
            Kind::Last => 0,
            Kind::Arrival => 16,
            Kind::Send => 17,
            Kind::Other(other) => other.number,
        }
    }

    // The kind that has a number.
    pub fn of(n: u64) -> Kind
        ensures { kind_number result ≡ n }
    {
        match n {
            0 => Kind::Last,
            16 => Kind::Arrival,
            17 => Kind::Send,
            _ => Kind::Other(OtherKind { number: n }),
        }
    }
}

// The answer of a call: its kind; its verdict; the class, the length and the tag of the packet that came or goes; of an arrival the charged
// bytes then waiting in its leaf, of a send what its packet waited; the rounds opened.
#[derive(Clone, Copy)]
pub struct Reply {
    pub kind: Kind,
    pub verdict: Verdict,
    pub class: u64,
    pub length: u64,
    pub tag: u64,
    pub bytes: u64,
    pub rounds: u64,
}

// What a burst gives: whether all is well, or the number and the place of what ended it; the place that it came to, and how many calls it
// made.
// R342: a burst that a malformed record ends tells how far it came; so these stand beside the verdict, and not in a Result.
#[derive(Drop)]
pub struct BurstEnd {
    pub verdict: Verdict,
    pub place: usize,
    pub replies: usize,
}

// Calls made one after the other: how far the run has come, and how many numbers were laid.
#[derive(Drop)]
pub struct CallsDone {
    pub run: Heard,
    pub laid: usize,
}

// Whether one event more is taken: the run goes on, and the buffer has the room that it needs.
pub fn takes_one(more: bool, laid: usize, room: usize, need: usize) -> bool
    requires { laid ≤ room }
    ensures { result ≡ (more && leb (laid + need) room) }
{
    more && need <= room - laid
}

// The row of a call is laid; an event that is no call has none.
fn lay_call(more: bool, reply: Reply, at: usize, out: &mut [u64]) -> usize
    requires { at + 8 ≤ length out.old }
    ensures { Laid more reply at out.old result out.new }
{
    if !more {
        return at;
    }
    row::lay(reply, at, out)
}

// Calls on a sound link, from a place of the input on, as long as the run goes on and the buffer has room.
fn make_calls(
    shape: &[u64; 195],
    children: &[u64; 64],
    stand: Stand,
    balance: &mut [u64; 64],
    residual: &mut [u64; 64],
    start: &mut [u8; 64],
    held: &mut [u8; 64],
    lengths: &mut [u16; 2048],
    tags: &mut [u32; 2048],
    marks: &mut [u64; 2048],
    packets: &mut [u64; 64],
    bytes: &mut [u64; 64],
    input: &[u8],
    place: usize,
    out: &mut [u64],
) -> CallsDone
    requires { Told true (link_at true (tree_in shape.now) stand balance.old residual.old start.old held.old lengths.old
        tags.old
        marks.old packets.old bytes.old) × Families (tree_in shape.now) children.now × (stand.known ≡ 0) }
    ensures { Served (link_at true (tree_in shape.now) stand balance.old residual.old
        start.old held.old lengths.old tags.old marks.old packets.old
        bytes.old) input.now place out.old result out.new
        (link_at true (tree_in shape.now) result.run.stand balance.new residual.new start.new
        held.new lengths.new tags.new marks.new packets.new bytes.new) }
{
    let mut kept = [0u32; 64];
    let first = event::last_reply(Ok(()));
    let mut run = event::outcome(true, first, true, place, stand);
    let mut laid: usize = 0;
    while takes_one(run.more, laid, out.len(), ROW) {
        run = event::event(
            run, shape, children, &mut kept, balance, residual, start, held, lengths, tags, marks,
            packets, bytes, input,
        );
        laid = lay_call(run.more, run.reply, laid, out);
    }
    CallsDone { run, laid }
}

// What ended the calls: nothing where the run goes on or its input ends, else the malformed record.
fn ended(run: Heard) -> Verdict
    ensures { result ≡ ended_by run.more run.reply.verdict }
{
    if run.more {
        return Ok(());
    }
    let reply = run.reply;
    reply.verdict
}

// Where a link stands, by the four numbers that its caller keeps; no weight sums are kept.
pub fn stand_in(four: &[u64; 4]) -> Stand
    ensures { result ≡ stand_in four.now }
{
    let size = Bytes(four[0]);
    Stand {
        known: 0,
        size,
        active: four[1],
        place: four[2] as usize,
        charged: four[3],
    }
}

// The four numbers of where it stands.
pub(crate) fn four_of(stand: Stand) -> [u64; 4]
    ensures { result ≡ four_of stand }
{
    let size = stand.size;
    [size.0, stand.active, stand.place as u64, stand.charged]
}

// A burst on a record that is not sound: none is made.
fn no_burst() -> BurstEnd
    ensures { result ≡ record { verdict = Err (refusal_at NotSound 0); place = 0; replies = 0 } }
{
    BurstEnd {
        verdict: Err(Refused(Refusal::NotSound, 0)),
        place: 0,
        replies: 0,
    }
}

// A burst: calls from a place of the input on, on any record whatever.
pub fn burst(
    shape: &[u64; 195],
    stand: &mut [u64; 4],
    balance: &mut [u64; 64],
    residual: &mut [u64; 64],
    start: &mut [u8; 64],
    held: &mut [u8; 64],
    lengths: &mut [u16; 2048],
    tags: &mut [u32; 2048],
    marks: &mut [u64; 2048],
    packets: &mut [u64; 64],
    bytes: &mut [u64; 64],
    input: &[u8],
    place: usize,
    out: &mut [u64],
) -> BurstEnd
    ensures { Bursts (link_in shape.now stand.old balance.old residual.old
        start.old held.old lengths.old tags.old marks.old packets.old
        bytes.old) input.now place out.old result out.new
        (link_in shape.now stand.new balance.new residual.new start.new held.new
        lengths.new tags.new marks.new packets.new bytes.new) }
{
    let mut children = [0u64; 64];
    let from = stand_in(stand);
    if !sound::is_sound_at(
        shape,
        from.size,
        from.active,
        from.place,
        balance,
        residual,
        start,
        held,
        lengths,
        packets,
        bytes,
        &mut children,
    ) {
        return no_burst();
    }
    let done = make_calls(
        shape, &children, from, balance, residual, start, held, lengths, tags, marks, packets,
        bytes, input, place, out,
    );
    totals::work_out(true, shape, &children, packets, bytes);
    let run = done.run;
    let then = run.stand;
    *stand = four_of(then);
    BurstEnd {
        verdict: ended(run),
        place: run.place,
        replies: done.laid / ROW,
    }
}
