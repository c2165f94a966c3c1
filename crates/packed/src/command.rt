// The numbers and the texts of a command, big-endian, and where the next one begins; what lies past the input's end reads as 0.
ghost use Rattle.std.specs.Prelude.{◌≡◌, ◌+◌, ◌≤◌, ◌<◌, min};
ghost use Rattle.plan.specs.Record.{byte_at, number16, number32};
ghost use Rattle.packed.specs.Command.{number64, slice_of};

// The byte at a place.
pub fn number_8(s: &[u8], k: usize) -> u64
    ensures { (result ≡ byte_at s.now k) × (result < 256) }
{
    s.get(k).map_or(0, |byte| u64::from(*byte))
}

// The number of two bytes at a place.
pub fn number_16(s: &[u8], k: usize) -> u64
    requires { k < 1_024 }
    ensures { (result ≡ number16 s.now k) × (result < 65_536) }
{
    number_8(s, k) * 256 + number_8(s, k + 1)
}

// The number of four bytes at a place.
pub fn number_32(s: &[u8], k: usize) -> u64
    requires { k < 32 }
    ensures { (result ≡ number32 s.now k) × (result < 4_294_967_296) }
{
    number_16(s, k) * 65_536 + number_16(s, k + 2)
}

// The number of eight bytes at a place.
pub fn number_64(s: &[u8], k: usize) -> u64
    requires { k < 16 }
    ensures { result ≡ number64 s.now k }
{
    number_32(s, k) * 4_294_967_296 + number_32(s, k + 4)
}

// The bytes from one place to another; none where there are not so many.
pub fn part(s: &[u8], from: usize, to: usize) -> &[u8]
    ensures { result.now ≡ slice_of s.now from to }
{
    s.get(from..to).unwrap_or(&[])
}

// The place of the next command, at most the input's end.
pub fn next(at: usize, size: usize, end: usize) -> usize
    requires { (1 ≤ size) × (at < end) }
    ensures { (result ≡ min (at + size) end) × (at < result) × (result ≤ end) }
{
    at.saturating_add(size).min(end)
}
