// A value stored into one number of a link record, whatever it does to the link's soundness; it runs, and the answers are compared with
// the written-down ones.
use packed::stored::{cut_8, cut_16, cut_32, tree_number};
use state::Link;
use units::Bytes;

// Any field, by its number: 0 to 4 and 14 are those of the tree; 8 to 11, 15 and 16 stand at a class number, 12, 13 and 17 in a waiting
// place. A number that is none of the link's, and an index past the last, changes nothing.
pub(crate) fn stored(mut link: Link, field: u64, i: usize, value: u64) -> Link {
    match field {
        0..=4 | 14 => link.tree = tree_number(link.tree, field, i, value),
        5 => link.round.size = Bytes(value),
        6 => link.round.active = value,
        7 => link.round.place = value as usize,
        8 if i < 64 => link.round.accounts[i].balance.0 = value,
        9 if i < 64 => link.round.accounts[i].residual.0 = value,
        10 if i < 64 => link.start[i] = cut_8(value),
        11 if i < 64 => link.held[i] = cut_8(value),
        12 if i < 2048 => link.lengths[i] = cut_16(value),
        13 if i < 2048 => link.tags[i] = cut_32(value),
        15 if i < 64 => link.totals.packets[i] = value,
        16 if i < 64 => link.totals.bytes[i] = value,
        17 if i < 2048 => link.marks[i] = value,
        18 => link.totals.charged = value,
        _ => {}
    }
    link
}
