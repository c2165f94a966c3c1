// A text, and a number's decimal digits, laid into a lent buffer. A number is laid two digits at a time, without a loop: its upper part,
// then its last two, four or eight digits. The digits are those of R166.
#![tactic(auto)]

ghost use Rattle.std.specs.Prelude.{◌≡◌, ◌<◌, ◌+◌, ◌≤◌, length};
ghost use Rattle.digits.specs.Decimal.{digit, decimal};
ghost use Rattle.digits.specs.Laid.{two_digits, four_digits, eight_digits, LaidAt};

// Lays a text from a place on, and answers the place after it.
pub fn put(text: &[u8], at: usize, out: &mut [u8]) -> usize
    requires { at + length text.now ≤ length out.old }
    ensures { LaidAt at text.now out.old result out.new }
{
    let end = at + text.len();
    out[at..end].copy_from_slice(text);
    end
}

// The byte of a digit.
pub fn byte_of(d: u32) -> u8
    requires { d < 10 }
    ensures { result ≡ digit d }
{
    b'0' + d as u8
}

// Lays a number below 100 in two digits, a leading zero too.
fn put_two(n: u32, at: usize, out: &mut [u8]) -> usize
    requires { (n < 100) × (at + 2 ≤ length out.old) }
    ensures { LaidAt at (two_digits n) out.old result out.new }
{
    out[at] = byte_of(n / 10);
    out[at + 1] = byte_of(n % 10);
    at + 2
}

// Lays a number below 10,000 in four digits.
fn put_four(n: u32, at: usize, out: &mut [u8]) -> usize
    requires { (n < 10_000) × (at + 4 ≤ length out.old) }
    ensures { LaidAt at (four_digits n) out.old result out.new }
{
    let next = put_two(n / 100, at, out);
    put_two(n % 100, next, out)
}

// Lays a number below 100,000,000 in eight digits.
fn put_eight(n: u32, at: usize, out: &mut [u8]) -> usize
    requires { (n < 100_000_000) × (at + 8 ≤ length out.old) }
    ensures { LaidAt at (eight_digits n) out.old result out.new }
{
    let next = put_four(n / 10_000, at, out);
    put_four(n % 10_000, next, out)
}

// Lays a number below 100, without a leading zero.
fn put_short(n: u32, at: usize, out: &mut [u8]) -> usize
    requires { (n < 100) × (at + 2 ≤ length out.old) }
    ensures { LaidAt at (decimal n) out.old result out.new }
{
    if n < 10 {
        out[at] = byte_of(n);
        return at + 1;
    }
    put_two(n, at, out)
}

// Lays a number below 10,000: its hundredth, then two digits.
pub fn put_few(n: u32, at: usize, out: &mut [u8]) -> usize
    requires { (n < 10_000) × (at + 4 ≤ length out.old) }
    ensures { LaidAt at (decimal n) out.old result out.new }
{
    if n < 100 {
        return put_short(n, at, out);
    }
    let next = put_short(n / 100, at, out);
    put_two(n % 100, next, out)
}

// Lays a number below 100,000,000: its ten-thousandth, then four digits.
fn put_many(n: u32, at: usize, out: &mut [u8]) -> usize
    requires { (n < 100_000_000) × (at + 8 ≤ length out.old) }
    ensures { LaidAt at (decimal n) out.old result out.new }
{
    if n < 10_000 {
        return put_few(n, at, out);
    }
    let next = put_few(n / 10_000, at, out);
    put_four(n % 10_000, next, out)
}

// Lays a number below 1,000,000,000,000: what stands before the last eight digits of any number.
fn put_upper(n: u64, at: usize, out: &mut [u8]) -> usize
    requires { (n < 1_000_000_000_000) × (at + 12 ≤ length out.old) }
    ensures { LaidAt at (decimal n) out.old result out.new }
{
    if n < 100_000_000 {
        return put_many(n as u32, at, out);
    }
    let next = put_few((n / 100_000_000) as u32, at, out);
    put_eight((n % 100_000_000) as u32, next, out)
}

// Lays a number from 10,000 on. One below 100,000,000 is laid here: handed to `put_many` it would cost a call.
pub fn put_large(n: u64, at: usize, out: &mut [u8]) -> usize
    requires { (10_000 ≤ n) × (at + 20 ≤ length out.old) }
    ensures { LaidAt at (decimal n) out.old result out.new }
{
    if n < 100_000_000 {
        let few = n as u32;
        let next = put_few(few / 10_000, at, out);
        return put_four(few % 10_000, next, out);
    }
    let next = put_upper(n / 100_000_000, at, out);
    put_eight((n % 100_000_000) as u32, next, out)
}
