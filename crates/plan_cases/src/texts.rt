// The texts of a packed command: its name and its body. They run, and the answers are compared with the written-down ones.
ghost use Rattle.std.specs.Prelude.{◌≤◌, ◌<◌};

use packed::command::{number_8, number_16, part};

// The bytes from a place on; none where there are not so many.
pub(crate) fn from(s: &[u8], k: usize) -> &[u8] {
    part(s, k, s.len())
}

// Where the name of a command ends.
fn name_end(command: &[u8]) -> usize
    ensures { (2 ≤ result) × (result < 258) }
{
    2 + number_8(command, 1) as usize
}

// Where its body ends, and the command.
pub(crate) fn size(command: &[u8]) -> usize
    ensures { 1 ≤ result }
{
    let end = name_end(command);
    end + 2 + number_16(command, end) as usize
}

// The name of a command.
pub(crate) fn name(command: &[u8]) -> &[u8] {
    part(command, 2, name_end(command))
}

// Its body.
pub(crate) fn body(command: &[u8]) -> &[u8] {
    part(command, name_end(command) + 2, size(command))
}
