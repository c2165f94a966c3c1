// A class's queue in lent number arrays: where its packets lie, one put last, the first one read and taken. Named for specs/Queue.
// Serves demand 2.
ghost use Rattle.std.specs.Prelude.{◌≡◌, ℕ, ◌+◌, ◌%◌, ◌<◌, ◌≤◌, List, slice_index};
ghost use Rattle.state.specs.declared.Link.{Link};
ghost use Rattle.state.specs.Queue.{slot, packet_at, queued, laid_last, lifted_first};

use crate::{Link, Waiting};

// The waiting place at a position of a class: class times 32 plus position.
pub fn slot(class: usize, position: usize) -> usize
    requires { (class < 64) × (position < 32) }
    ensures { (result ≡ slot class position) × (result < 2_048) }
{
    class * Link::PLACES + position
}

// The one after the packets of a class: positions go round the 32.
pub fn free_place(class: usize, start: u8, held: u8) -> usize
    requires { class < 64 }
    ensures { (result ≡ slot class ((start + held) % 32)) × (result < 2_048) }
{
    slot(
        class,
        (usize::from(start) + usize::from(held)) % Link::PLACES,
    )
}

// A packet is laid last in its class's queue.
pub fn put(
    class: usize,
    packet: Waiting,
    start: &[u8; 64],
    held: &mut [u8; 64],
    lengths: &mut [u16; 2048],
    tags: &mut [u32; 2048],
    marks: &mut [u64; 2048],
)
    requires { (class < 64) × (slice_index held.old class < 32) }
    ensures { (l : Link)
        → queued l start.now held.new lengths.new tags.new marks.new
        ≡ laid_last (queued l start.now held.old lengths.old tags.old marks.old)
        class packet }
{
    let at = free_place(class, start[class], held[class]);
    lengths[at] = packet.length;
    tags[at] = packet.tag;
    marks[at] = packet.mark;
    held[class] += 1;
}

// The first packet of a class's queue.
pub fn first(
    class: usize,
    start: &[u8; 64],
    lengths: &[u16; 2048],
    tags: &[u32; 2048],
    marks: &[u64; 2048],
) -> Waiting
    requires { (class < 64) × (slice_index start.now class < 32) }
    ensures { (l : Link) (held : List ℕ)
        → result ≡ packet_at (queued l start.now held lengths.now tags.now marks.now) class 0 }
{
    let at = slot(class, usize::from(start[class]));
    Waiting {
        length: lengths[at],
        tag: tags[at],
        mark: marks[at],
    }
}

// The first packet is lifted from its class's queue, and its place is free.
pub fn take(class: usize, start: &mut [u8; 64], held: &mut [u8; 64])
    requires { (class < 64) × (slice_index start.old class < 32) × (1 ≤ slice_index held.old class) }
    ensures { (l : Link) (lengths tags marks : List ℕ) → queued l start.new held.new lengths tags marks
        ≡ lifted_first (queued l start.old held.old lengths tags marks) class }
{
    let s = usize::from(start[class]);
    start[class] = ((s + 1) % Link::PLACES) as u8;
    held[class] -= 1;
}
