// The totals of a link record made to fit its queues, whatever the record is; it runs, and the answers are compared with the written-down
// ones.
ghost use Rattle.std.specs.Prelude.{◌<◌};

use state::queue::free_place;
use state::{Link, Totals};

// What the packets of a class cost together: at most 255 packets of 65,559 bytes each.
fn queue_bytes(lengths: &[u16; 2048], class: usize, start: u8, held: u8) -> u64
    requires { class < 64 }
{
    let mut sum: u64 = 0;
    for k in 0..held {
        let cost = units::cost(lengths[free_place(class, start, k)]);
        sum = sum.saturating_add(cost.0);
    }
    sum
}

// A sum goes into that of a class; 63 leaves' sums together are far below 2 to the 64.
fn add(class: usize, sum: u64, sums: &mut [u64; 64])
    requires { class < 64 }
{
    sums[class] = sums[class].saturating_add(sum);
}

// The sum of a class goes into its parent's, where that is lower.
fn pass_up(class: usize, parent: u8, sums: &mut [u64; 64])
    requires { class < 64 }
{
    let up = usize::from(parent);
    if up < class {
        add(up, sums[class], sums);
    }
}

// The totals that fit, from the highest class down: a leaf counts its queue, and each class is counted in its parent.
fn fitting(link: &Link) -> Totals {
    let mut packets = [0u64; 64];
    let mut bytes = [0u64; 64];
    for i in (1..Link::CLASSES).rev() {
        if sets::has(link.tree.leaves, i) {
            let held = link.held[i];
            add(i, u64::from(held), &mut packets);
            add(
                i,
                queue_bytes(&link.lengths, i, link.start[i], held),
                &mut bytes,
            );
        }
        pass_up(i, link.tree.parent[i], &mut packets);
        pass_up(i, link.tree.parent[i], &mut bytes);
    }
    Totals {
        packets,
        bytes,
        charged: link.totals.charged,
    }
}

// The link with totals that fit.
pub(crate) fn fit(mut link: Link) -> Link {
    let totals = fitting(&link);
    link.totals = totals;
    link
}
