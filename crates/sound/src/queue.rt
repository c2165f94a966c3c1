// The waiting packets of a leaf, place by place and not in the order of the queue, without an early end. All numbers of the loop have 16
// bits, and a turn of it looks at four places: so a processor looks at 32 places in one turn. Named for specs/Steps.
// Serves demand 1.
ghost use Rattle.std.specs.Prelude.{◌≡◌, ◌+◌, ◌-◌, ◌*◌, ◌%◌, ◌<◌, ◌≤◌};
ghost use Rattle.checks.specs.Check.{Exactly};
ghost use Rattle.tree.specs.Sum.{sum_to};
ghost use Rattle.sound.specs.Steps.{seen_of, seen_at, most_to, four_over, QueueRight};

use crate::View;
use state::queue::slot;

// What is seen of the 32 places of a leaf: the most that is seen of one, and what is above 59 of each, together, as high times 256 plus
// low.
#[derive(Drop)]
pub struct AllSeen {
    pub most: u16,
    pub low: u16,
    pub high: u16,
}

// What is seen of a packet that waits: its length less 1, which wraps where it is 0; and 0 where none waits, for the turn of its place is
// past those held.
fn seen(length: u16, turn: u16, held: u16) -> u16
    ensures { result ≡ seen_of length turn held }
{
    if held <= turn {
        return 0;
    }
    std::num::wrapping_sub_u16(length, 1)
}

// What is seen of a place of a class.
fn seen_at(class: usize, start: u16, held: u16, lengths: &[u16; 2048], k: u16) -> u16
    requires { (class < 64) × (start ≤ 31) × (k < 32) }
    ensures { result ≡ seen_at lengths.now class start held k }
{
    let turn = (k + 32 - start) % 32;
    seen(lengths[slot(class, usize::from(k))], turn, held)
}

// What is above 59 of four numbers, together: it wraps.
fn above_of(a: u16, b: u16, c: u16, d: u16) -> u16
    ensures { result ≡ ((a - 59) + (b - 59) + (c - 59) + (d - 59)) % 65_536 }
{
    let first = std::num::wrapping_add_u16(a.saturating_sub(59), b.saturating_sub(59));
    let last = std::num::wrapping_add_u16(c.saturating_sub(59), d.saturating_sub(59));
    std::num::wrapping_add_u16(first, last)
}

// What is seen of all places of a class.
fn seen_in(class: usize, start: u16, held: u16, lengths: &[u16; 2048]) -> AllSeen
    requires { (class < 64) × (start ≤ 31) }
    ensures { (result.most ≡ most_to (seen_at lengths.now class start held) 8)
        × (result.high * 256 + result.low ≡ sum_to (λ k. four_over (seen_at lengths.now class start held) (k - 1)) 8) }
{
    let mut most: u16 = 0;
    let mut low: u16 = 0;
    let mut high: u16 = 0;
    for k in 0..8 {
        let a = seen_at(class, start, held, lengths, k);
        let b = seen_at(class, start, held, lengths, k + 8);
        let c = seen_at(class, start, held, lengths, k + 16);
        let d = seen_at(class, start, held, lengths, k + 24);
        most = most.max(a.max(b).max(c.max(d)));
        let over = above_of(a, b, c, d);
        low += over % 256;
        high += over / 256;
    }
    AllSeen { most, low, high }
}

// The waiting packets of a leaf are within its range, and cost together what its total says: 84 bytes each, and what each is longer than
// 60.
pub(crate) fn queue_right(v: View, lengths: &[u16; 2048], longest: u16) -> bool
    requires { (v.class < 64) × (v.start ≤ 31) × (v.held ≤ 32) × (longest ≤ 9_216) }
    ensures { Exactly result (QueueRight v lengths.now longest) }
{
    if v.held == 0 {
        return v.bytes == 0;
    }
    let all = seen_in(v.class, u16::from(v.start), u16::from(v.held), lengths);
    all.most < longest
        && v.bytes == u64::from(all.high) * 256 + u64::from(all.low) + 84 * u64::from(v.held)
}
