// The exported calls on a plan: its rates, its waits and a weight mended are those of crate page_calls on the same bytes, with the same
// numbers in the same arrays; and the tree of a link's shape is written as a plan (R352). Serves demands 1 and 3.
ghost use Rattle.shape.specs.Shape.{tree_in};
ghost use Rattle.written.specs.Writing.{Writes};
ghost use Rattle.page_calls.specs.Calls.{WritesTree, MendsPlan, RatesOf, WaitsOf, BoundOf};

use crate::numbers::{number_of, said_of};
use checks::{Refusal, Refused};
use written::Written;

// The rates of a plan: the leaves' requests in; the refusal's number; number, place and the last class; requests, gets and left out.
#[unsafe(no_mangle)]
pub extern "C" fn cb_rates(
    plan: &[u8],
    capacity: u64,
    said: &mut [u64; 3],
    requests: &mut [u64; 64],
    gets: &mut [u64; 64],
    left: &mut [u64; 64],
) -> u32
    ensures { RatesOf plan.now capacity requests.old result said.new requests.new
        gets.new left.new }
{
    page_calls::page_rates(plan, capacity, said, requests, gets, left)
}

// The longest waits of a leaf of a plan: the refusal's number; bytes alone in its queue and as the last of 32.
#[unsafe(no_mangle)]
pub extern "C" fn cb_waits(plan: &[u8], class: usize, bytes: &mut [u64; 2]) -> u32
    ensures { WaitsOf plan.now class result bytes.new }
{
    page_calls::page_waits(plan, class, bytes)
}

// The bound of a packet that is accepted with D bytes in its queue, its own among them; 0 where none is promised.
#[unsafe(no_mangle)]
pub extern "C" fn cb_bound(plan: &[u8], class: usize, d: u64) -> u64
    ensures { BoundOf plan.now class d result }
{
    page_calls::page_bound(plan, class, d)
}

// Mends a plan: the refusal's number; number, place and bytes used; how many weights change, their classes, old and new.
#[unsafe(no_mangle)]
pub extern "C" fn cb_mend(
    plan: &[u8],
    said: &mut [u64; 3],
    count: &mut [u64; 1],
    class: &mut [u64; 64],
    old: &mut [u64; 64],
    new: &mut [u64; 64],
) -> u32
    ensures { MendsPlan plan.now result said.new count.new class.new old.new
        new.new }
{
    page_calls::page_mend(plan, said, count, class, old, new)
}

// The tree of a shape is written: a shape that breaks the plan rules is refused as its tree would be.
fn write_shape(shape: &[u64; 195], out: &mut [u8]) -> Written
    ensures { Writes (tree_in shape.now) out.old result out.new }
{
    let mut children = [0u64; 64];
    if shape::plan_size_at(shape, &mut children).is_none() {
        let verdict = Err(Refused(Refusal::NotSound, 0));
        return Written { verdict, used: 0 };
    }
    let tree = shape::tree_of(shape);
    written::write_plan(tree, out)
}

// Writes the tree of a link's shape as a plan: the refusal's number; number, place and bytes written; the bytes into the buffer.
#[unsafe(no_mangle)]
pub extern "C" fn cb_write_fields(shape: &[u64; 195], out: &mut [u8], said: &mut [u64; 3]) -> u64
    ensures { WritesTree (tree_in shape.now) out.old result said.new out.new }
{
    let written = write_shape(shape, out);
    let verdict = written.verdict;
    *said = said_of(verdict, written.used);
    number_of(verdict)
}
