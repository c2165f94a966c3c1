// The totals of a link in lent number arrays, while calls are made one after the other: a packet that comes or goes is counted at its leaf
// and at the root, and `work_out` works out what the inner classes count, once, before the arrays are handed back. Named for
// specs/WorkedOut.
// Serves demand 2.
#![tactic(auto)]

ghost use Rattle.std.specs.Prelude.{true, false, ◌≡◌, ℕ, ◌+◌, ◌^◌, ◌≤◌, ◌<◌, length};
ghost use Rattle.sets.specs.Set.{has};
ghost use Rattle.units.specs.Cost.{cost_of};
ghost use Rattle.tree.specs.declared.Tree.{Tree};
ghost use Rattle.tree.specs.Class.{is_leaf};
ghost use Rattle.tree.specs.Rules.{PlanRules};
ghost use Rattle.shape.specs.Shape.{tree_in, Families};
ghost use Rattle.state.specs.WayUp.{changed, recounted};
ghost use Rattle.totals.specs.WorkedOut.{worked_out, table_for, totals_for, changed_ends, CountsAt, Light, Near, Addable, sum_in, turn_of};

// A number more by another, or less by it, which is not more.
fn changed(fewer: bool, by: u64, n: u64) -> u64
    requires { (n + by < 2 ^ 64) × (fewer ≡ true → by ≤ n) }
    ensures { result ≡ changed fewer by n }
{
    if fewer { n - by } else { n + by }
}

// A table counts so much more, or less, at a leaf and at the root.
fn count_in(fewer: bool, by: u64, class: usize, table: &mut [u64; 64])
    requires { (1 ≤ class) × (class < 64) × (by < 2 ^ 32) × CountsAt fewer by class table.old }
    ensures { (length table.old ≡ 64)
        × (table.new ≡ changed_ends (changed fewer by) class table.old)
        × Near table.old table.new }
{
    table[class] = changed(fewer, by, table[class]);
    table[0] = changed(fewer, by, table[0]);
}

// One packet of a length is counted more, or less: in bytes what it costs. For the inner classes above its leaf it is counted when they
// are worked out.
pub fn count(fewer: bool, class: usize, length: u16, packets: &mut [u64; 64], bytes: &mut [u64; 64])
    requires { (1 ≤ class) × (class < 64) × CountsAt fewer 1 class packets.old
        × CountsAt fewer (cost_of length) class bytes.old }
    ensures { ((t : Tree) (charged : ℕ) → PlanRules t → is_leaf t class ≡ true
        → totals_for true t packets.new bytes.new charged
        ≡ recounted fewer t class (cost_of length) (totals_for true t packets.old bytes.old charged))
        × Near packets.old packets.new × Near bytes.old bytes.new }
{
    let cost = units::cost(length);
    count_in(fewer, 1, class, packets);
    count_in(fewer, cost.0, class, bytes);
}

// What some classes count together, in both tables.
#[derive(Drop)]
pub struct Sum {
    pub packets: u64,
    pub bytes: u64,
}

fn sum_of(set: u64, packets: &[u64; 64], bytes: &[u64; 64]) -> Sum
    requires { (has set 0 ≡ false) × Addable set packets.now × Addable set bytes.now }
    ensures { (result.packets ≡ sum_in set packets.now) × (result.bytes ≡ sum_in set bytes.now) }
{
    let mut rest = set;
    let mut many: u64 = 0;
    let mut cost: u64 = 0;
    let mut i = sets::next(rest, 0);
    while i < 64 {
        many += packets[i];
        cost += bytes[i];
        rest = sets::without(rest, i);
        i = sets::next(rest, 0);
    }
    Sum {
        packets: many,
        bytes: cost,
    }
}

// A leaf counts what it counts; an inner class what its children count together.
fn work_out_class(leaf: bool, i: usize, kin: u64, packets: &mut [u64; 64], bytes: &mut [u64; 64])
    requires { (i < 64) × (leaf ≡ false → (has kin 0 ≡ false) × Addable kin packets.old × Addable kin bytes.old) }
    ensures { (packets.new ≡ turn_of leaf i kin packets.old)
        × (bytes.new ≡ turn_of leaf i kin bytes.old) }
{
    if leaf {
        return;
    }
    let sum = sum_of(kin, packets, bytes);
    packets[i] = sum.packets;
    bytes[i] = sum.bytes;
}

// What every inner class counts is worked out, from the highest down: its children come after it.
fn work_out_inner(
    shape: &[u64; 195],
    children: &[u64; 64],
    packets: &mut [u64; 64],
    bytes: &mut [u64; 64],
)
    requires { PlanRules (tree_in shape.now) × Families (tree_in shape.now) children.now
        × (length packets.old ≡ 64) × (length bytes.old ≡ 64)
        × Light (tree_in shape.now) packets.old × Light (tree_in shape.now) bytes.old }
    ensures { (packets.new ≡ worked_out (tree_in shape.now) packets.old)
        × (bytes.new ≡ worked_out (tree_in shape.now) bytes.old) }
{
    let leaves = shape::leaves(shape);
    for i in (1..=shape::count(shape)).rev() {
        let leaf = sets::has(leaves, i);
        work_out_class(leaf, i, children[i], packets, bytes);
    }
}

// Before the tables are handed back: what every inner class counts is worked out, where it is told that the link is sound. A plan without
// inner classes has nothing to work out.
pub fn work_out(
    sound: bool,
    shape: &[u64; 195],
    children: &[u64; 64],
    packets: &mut [u64; 64],
    bytes: &mut [u64; 64],
)
    requires { sound ≡ true → PlanRules (tree_in shape.now) × Families (tree_in shape.now) children.now
        × Light (tree_in shape.now) packets.old × Light (tree_in shape.now) bytes.old }
    ensures { (packets.new ≡ table_for sound (tree_in shape.now) packets.old)
        × (bytes.new ≡ table_for sound (tree_in shape.now) bytes.old) }
{
    if !sound {
        return;
    }
    if children[0] == shape::leaves(shape) {
        return;
    }
    work_out_inner(shape, children, packets, bytes);
}
