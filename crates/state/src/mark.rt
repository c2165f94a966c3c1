// The running total of bytes charged on the link, and a waiting packet's mark: the total when it was accepted. Named for specs/Mark.
// Serves demands 2 and 3.
ghost use Rattle.std.specs.Prelude.{◌≡◌, ◌+◌};
ghost use Rattle.state.specs.Mark.{marked_with, wrapped, since};

use crate::{Packet, Waiting};

// A packet that is accepted waits with the running total for its mark.
pub fn marked_with(total: u64, packet: Packet) -> Waiting
    ensures { result ≡ marked_with total packet }
{
    Waiting {
        length: packet.length,
        tag: packet.tag,
        mark: total,
    }
}

// The running total when a charge has joined it: it wraps.
pub fn grown(total: u64, charge: u64) -> u64
    ensures { result ≡ wrapped (total + charge) }
{
    std::num::wrapping_add_u64(total, charge)
}

// The bytes charged since a mark was taken: the total less the mark, modulo 2 to the power 64.
pub fn since(total: u64, mark: u64) -> u64
    ensures { result ≡ since total mark }
{
    std::num::wrapping_sub_u64(total, mark)
}
