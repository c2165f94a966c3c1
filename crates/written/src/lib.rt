// A plan written back: the bytes of any tree laid into a lent buffer (R258 to R263). The entry asks nothing (R196).
// Classes are laid upward, one after the other.
#![tactic(auto)]

ghost use Rattle.checks.specs.Check.{refusal_at};
ghost use Rattle.std.specs.Prelude.{◌≡◌, ◌+◌, ◌≤◌, ◌<◌, length, Err};
ghost use Rattle.io.specs.Counts.{IsPrefixLen};
ghost use Rattle.digits.specs.Laid.{LaidAt};
ghost use Rattle.written.specs.Bytes.{inner_bytes, leaf_bytes, record_bytes, rule_bytes, class_bytes, classes_bytes, plan_bytes};
ghost use Rattle.written.specs.Writing.{nothing_written, Writes};

use checks::{Refusal, Refused, Verdict};
use tree::Tree;

// The answer: a verdict, and the bytes written.
// R163: in an answer that refuses every further number is 0; so they stand beside the verdict, and not in a Result.
#[derive(Drop)]
pub struct Written {
    pub verdict: Verdict,
    pub used: usize,
}

// Lays the record of an inner class: kind 1, parent 1, weight 4.
fn put_inner(parent: u8, weight: u32, at: usize, out: &mut [u8]) -> usize
    requires { at + 6 ≤ length out.old }
    ensures { LaidAt at (inner_bytes parent weight) out.old result out.new }
{
    let next = digits::put(&[1, parent], at, out);
    digits::put(&weight.to_be_bytes(), next, out)
}

// Lays the record of a leaf: kind 2, parent 1, weight 4, longest 2.
fn put_leaf(parent: u8, weight: u32, longest: u16, at: usize, out: &mut [u8]) -> usize
    requires { at + 8 ≤ length out.old }
    ensures { LaidAt at (leaf_bytes parent weight longest) out.old result out.new }
{
    let next = digits::put(&[2, parent], at, out);
    let next = digits::put(&weight.to_be_bytes(), next, out);
    digits::put(&longest.to_be_bytes(), next, out)
}

// Lays a class record.
fn put_record(leaf: bool, parent: u8, weight: u32, longest: u16, at: usize, out: &mut [u8]) -> usize
    requires { at + length (record_bytes leaf parent weight longest) ≤ length out.old }
    ensures { LaidAt at (record_bytes leaf parent weight longest) out.old result out.new }
{
    if leaf {
        put_leaf(parent, weight, longest, at, out)
    } else {
        put_inner(parent, weight, at, out)
    }
}

// Lays the record of class i.
fn put_class(tree: Tree, i: usize, at: usize, out: &mut [u8]) -> usize
    requires { (i < 64) × (at + length (class_bytes tree i) ≤ length out.old) }
    ensures { LaidAt at (class_bytes tree i) out.old result out.new }
{
    let leaf = sets::has(tree.leaves, i);
    let weight = tree.weight[i];
    put_record(leaf, tree.parent[i], weight.0, tree.longest[i], at, out)
}

// Lays the rule record: kind 3, the rule 1; for rule 2 only.
fn put_rule(follows: bool, out: &mut [u8]) -> usize
    requires { length (rule_bytes follows) ≤ length out.old }
    ensures { LaidAt 0 (rule_bytes follows) out.old result out.new }
{
    if !follows {
        return 0;
    }
    digits::put(b"\x03\x02", 0, out)
}

// Lays the records of the classes 1 to n.
fn put_classes(tree: Tree, n: usize, at: usize, out: &mut [u8]) -> usize
    requires { (n ≤ 63) × (at + length (classes_bytes tree n) ≤ length out.old) }
    ensures { LaidAt at (classes_bytes tree n) out.old result out.new }
{
    let mut next = at;
    for i in 1..=n {
        next = put_class(tree, i, next, out);
    }
    next
}

// Lays the whole plan.
fn put_plan(tree: Tree, out: &mut [u8]) -> usize
    requires { (tree.count ≤ 63) × (length (plan_bytes tree) ≤ length out.old) }
    ensures { LaidAt 0 (plan_bytes tree) out.old result out.new }
{
    let start = put_rule(tree.follows, out);
    let end = put_classes(tree, tree.count, start, out);
    out[end] = 0;
    end + 1
}

// The bytes of the whole plan.
fn plan_length(tree: Tree) -> usize
    requires { tree.count ≤ 63 }
    ensures { result ≡ length (plan_bytes tree) }
{
    let mut n = if tree.follows { 2 } else { 0 };
    for i in 1..=tree.count {
        n += if sets::has(tree.leaves, i) { 8 } else { 6 };
    }
    n + 1
}

// A refusal writes nothing.
fn refuse(refused: Refused) -> Written
    ensures { result ≡ nothing_written (Err refused) }
{
    let verdict = Err(refused);
    Written { verdict, used: 0 }
}

// Writes a tree's plan at the buffer's start: any tree, any buffer (R260 to R263). The last clause is what a caller needs to lend it.
pub fn write_plan(tree: Tree, out: &mut [u8]) -> Written
    ensures writes { Writes tree out.old result out.new }
    ensures prefix_len { IsPrefixLen result.used out.new }
{
    if !shape::is_plan(tree) {
        return refuse(Refused(Refusal::NotSound, 0));
    }
    let needed = plan_length(tree);
    if out.len() < needed {
        return refuse(Refused(Refusal::NoRoom, needed));
    }
    let used = put_plan(tree, out);
    let verdict = Ok(());
    Written { verdict, used }
}
