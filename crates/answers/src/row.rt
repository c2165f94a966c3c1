// A reply as eight numbers, laid into a lent buffer. Named for specs/Reply.
// Serves demand 2.
ghost use Rattle.std.specs.Prelude.{◌≡◌, [], ◌∷◌, ◌+◌, ◌<◌, ◌≤◌, length};
ghost use Rattle.digits.specs.Laid.{LaidAt};
ghost use Rattle.answers.specs.Reply.{row_of};

use crate::Reply;

// Numbers of a row.
pub const ROW: usize = 8;

// Lays one number, and answers the place after it. A row is laid number by number: copied as one slice it costs a call more.
fn put(n: u64, at: usize, out: &mut [u64]) -> usize
    requires { at < length out.old }
    ensures { LaidAt at (n ∷ []) out.old result out.new }
{
    out[at] = n;
    at + 1
}

// Lays two numbers, four, and a row.
fn put_two(a: u64, b: u64, at: usize, out: &mut [u64]) -> usize
    requires { at + 2 ≤ length out.old }
    ensures { LaidAt at (a ∷ b ∷ []) out.old result out.new }
{
    let next = put(a, at, out);
    put(b, next, out)
}

fn put_four(a: u64, b: u64, c: u64, d: u64, at: usize, out: &mut [u64]) -> usize
    requires { at + 4 ≤ length out.old }
    ensures { LaidAt at (a ∷ b ∷ c ∷ d ∷ []) out.old result out.new }
{
    let next = put_two(a, b, at, out);
    put_two(c, d, next, out)
}

pub fn lay(reply: Reply, at: usize, out: &mut [u64]) -> usize
    requires { at + 8 ≤ length out.old }
    ensures { LaidAt at (row_of reply) out.old result out.new }
{
    let verdict = reply.verdict;
    let number = checks::number(verdict) as u64;
    let place = checks::place(verdict) as u64;
    let kind = reply.kind.number();
    let next = put_four(kind, number, place, reply.class, at, out);
    put_four(
        reply.length,
        reply.tag,
        reply.bytes,
        reply.rounds,
        next,
        out,
    )
}
