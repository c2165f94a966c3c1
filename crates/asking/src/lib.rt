// A class asks for its quota (section IV of the published HLS paper), over lent number arrays, the tree among them (`shape`). Named for
// published/specs/Asking.
#![tactic(auto)]

mod right;
mod visits;

ghost use Rattle.std.specs.Prelude.{◌≡◌, true, cond, ◌&&◌, ◌+◌, ◌*◌, ◌^◌, ◌<◌, ◌≤◌, eqb, length, get_or, set};
ghost use Rattle.sets.specs.Set.{has};
ghost use Rattle.units.specs.Unit.{quota_of};
ghost use Rattle.tree.specs.Class.{is_leaf};
ghost use Rattle.tree.specs.Rules.{PlanRules};
ghost use Rattle.state.specs.Account.{account_of, balance_of, funds_of, took_quota, handed_down};
ghost use Rattle.rules.specs.Active.{weight_sum};
ghost use Rattle.state.specs.Account.{zip_accounts};
ghost use Rattle.shape.specs.Shape.{tree_in};
ghost use Rattle.published.specs.Asking.{Published, ask};
ghost use Rattle.asking.specs.Lent.{TookFrom, Lent, Asker};

pub use right::asked_right;
use state::lent_accounts::{account_of, keep};
use units::{Bytes, Weight};
pub use visits::{Came, visit};

// The balance of class p falls by what it hands down to one child.
fn hand(p: usize, due: Bytes, balance: &mut [u64; 64], residual: &mut [u64; 64])
    requires { (p < 64) × (length (zip_accounts balance.old residual.old) ≡ 64)
        × (due.0 ≤ balance_of (zip_accounts balance.old residual.old) p) }
    ensures { zip_accounts balance.new residual.new
        ≡ set (zip_accounts balance.old residual.old) p
        (handed_down (account_of (zip_accounts balance.old residual.old) p) due.0) }
{
    let a = account_of(p, balance, residual);
    keep(p, a.hand_down(due), balance, residual);
}

// Class i takes R and its due into B and works out its quota over a weight sum.
fn take(
    i: usize,
    due: Bytes,
    sum: Weight,
    balance: &mut [u64; 64],
    residual: &mut [u64; 64],
    quotas: &mut [u64; 64],
)
    requires { (i < 64) × (length (zip_accounts balance.old residual.old) ≡ 64)
        × (funds_of (account_of (zip_accounts balance.old residual.old) i) + due.0 < 2 ^ 64) }
    ensures { (zip_accounts balance.new residual.new
        ≡ set (zip_accounts balance.old residual.old) i
        (took_quota (account_of (zip_accounts balance.old residual.old) i) due.0))
        × (quotas.new ≡ set quotas.old i
        (quota_of (funds_of (account_of (zip_accounts balance.old residual.old) i) + due.0) sum.0)) }
{
    let a = account_of(i, balance, residual);
    let b = a.take_quota(due);
    let has = b.balance;
    quotas[i] = units::quota(has, sum);
    keep(i, b, balance, residual);
}

// A weight sum, and with it the weight of a class where it counts.
fn with_weight(sum: Weight, weight: Weight, on: bool) -> Weight
    requires { sum.0 + weight.0 < 2 ^ 32 }
    ensures { result.0 ≡ sum.0 + cond on weight.0 0 }
{
    if on { sum.plus(weight) } else { sum }
}

// Whether a class whose parent is q is an active child of class p.
fn counts(q: usize, p: usize, on: bool) -> bool
    ensures { result ≡ (eqb q p && on) }
{
    q == p && on
}

// The weight sum of the active children of class p.
fn children_sum(shape: &[u64; 195], active: u64, p: usize) -> Weight
    requires { PlanRules (tree_in shape.now) }
    ensures { result.0 ≡ weight_sum (tree_in shape.now) active p }
{
    let mut sum = Weight(0);
    for i in 1..shape::count(shape) + 1 {
        let on = counts(shape::parent(shape, i), p, sets::has(active, i));
        sum = with_weight(sum, shape::weight(shape, i), on);
    }
    sum
}

// What a class works out its quota over: a leaf has no child.
fn own_sum(leaf: bool, shape: &[u64; 195], active: u64, i: usize) -> Weight
    requires { PlanRules (tree_in shape.now) × (leaf ≡ true → is_leaf (tree_in shape.now) i ≡ true) }
    ensures { result.0 ≡ weight_sum (tree_in shape.now) active i }
{
    if leaf {
        Weight(0)
    } else {
        children_sum(shape, active, i)
    }
}

// Class i takes its weight times its parent's quota, and its parent's balance falls by it.
fn take_from_parent(
    i: usize,
    p: usize,
    weight: Weight,
    sum: Weight,
    balance: &mut [u64; 64],
    residual: &mut [u64; 64],
    quotas: &mut [u64; 64],
)
    requires { (p < i) × (i < 64) × (length (zip_accounts balance.old residual.old) ≡ 64) × (length quotas.old ≡ 64)
        × (weight.0 * get_or quotas.old p 0 ≤ balance_of (zip_accounts balance.old residual.old) p)
        × (funds_of (account_of (zip_accounts balance.old residual.old) i) + weight.0 * get_or quotas.old p 0 < 2 ^ 64) }
    ensures { TookFrom i p weight.0 sum.0 (zip_accounts balance.old residual.old) quotas.old
        (zip_accounts balance.new residual.new) quotas.new }
{
    let due = units::due(weight, quotas[p]);
    hand(p, due, balance, residual);
    take(i, due, sum, balance, residual, quotas);
}

// A class that has no quota yet in this round asks its parent, which asks its own parent, up to the root.
pub fn ask(
    i: usize,
    leaf: bool,
    asked: u64,
    active: u64,
    shape: &[u64; 195],
    balance: &mut [u64; 64],
    residual: &mut [u64; 64],
    quotas: &mut [u64; 64],
) -> u64
    requires { (x : Published) × Lent x active asked shape.now balance.old residual.old quotas.old × Asker x i leaf }
    ensures { (x : Published)
        → Lent x active asked shape.now balance.old residual.old quotas.old → Asker x i leaf
        → Lent (ask x i) active result shape.now balance.new residual.new quotas.new }
{
    if sets::has(asked, i) {
        return asked;
    }
    let sum = own_sum(leaf, shape, active, i);
    if i == 0 {
        take(0, Bytes(0), sum, balance, residual, quotas);
        return sets::with(asked, 0);
    }
    let p = shape::parent(shape, i);
    let up = ask(p, false, asked, active, shape, balance, residual, quotas);
    take_from_parent(
        i,
        p,
        shape::weight(shape, i),
        sum,
        balance,
        residual,
        quotas,
    );
    sets::with(up, i)
}
