// A round opens: main or surplus, and what each account then shares out; the tree (`shape`), the weight sums and the accounts
// (`state::lent_accounts`) are lent arrays. Named for specs/Opens. Serves demand 2.
#![tactic(auto)]

ghost use Rattle.std.specs.Prelude.{◌≡◌, true, false, not, ◌&&◌, length, get_or, set, ◌+◌, ◌*◌, ◌≤◌, ◌<◌};
ghost use Rattle.state.specs.Account.{account_of, funds_of, zip_accounts};
ghost use Rattle.rules.specs.Steps.{CanOpen, CanResize};
ghost use Rattle.tree.specs.Rules.{PlanRules};
ghost use Rattle.shape.specs.Shape.{tree_in};
ghost use Rattle.active.specs.Known.{Summed};
ghost use Rattle.tree.specs.Size.{most_size, SizeRight};
ghost use Rattle.rules.specs.Opening.{kind_is, kind_of, size_in, resized, opened_accounts};
ghost use Rattle.opening.specs.Opens.{shared_out, root_shared, class_shared, BeginsWith, OpensWith};
ghost use Rattle.units.specs.Unit.{surplus_of};

use active::active_size;
use state::Account;
use state::lent_accounts::{account_of, keep};
use units::{Bytes, Weight};

// An account after an opening, and the quota it shares out.
#[derive(Drop)]
pub struct Shared {
    pub account: Account,
    pub quota: u64,
}

// An account takes its due and shares out what it has over a weight sum.
fn share_out(sum: Weight, a: Account, due: Bytes) -> Shared
    requires { (funds_of a ≤ most_size) × (due.0 ≤ 64 * most_size * 1_000_000) }
    ensures { result ≡ shared_out sum.0 a due.0 }
{
    let taken = a.take_quota(due);
    let has = taken.balance;
    let quota = units::quota(has, sum);
    let account = taken.hand_down(units::due(sum, quota));
    Shared { account, quota }
}

// The root when a round opens.
fn open_root(surplus: bool, sum: Weight, a: Account) -> Shared
    requires { funds_of a ≤ most_size }
    ensures { result ≡ root_shared surplus sum.0 a }
{
    if surplus {
        return Shared {
            account: a,
            quota: 0,
        };
    }
    share_out(sum, a, Bytes(0))
}

// A class other than the root.
fn open_class(on: bool, leaf: bool, sum: Weight, due: Bytes, a: Account) -> Shared
    requires { (funds_of a ≤ most_size) × (due.0 ≤ 64 * most_size * 1_000_000) }
    ensures { result ≡ class_shared on leaf sum.0 due.0 a }
{
    if !on {
        return Shared {
            account: a,
            quota: 0,
        };
    }
    if leaf {
        let account = a.take_quota(due);
        return Shared { account, quota: 0 };
    }
    share_out(sum, a, due)
}

// The quota of a class is kept; a leaf's is 0, as it stands there already.
fn keep_quota(i: usize, leaf: bool, quota: u64, quotas: &mut [u64; 64])
    requires { (i < 64) × (leaf ≡ true → get_or quotas.old i 0 ≡ quota) }
    ensures { quotas.new ≡ set quotas.old i quota }
{
    if !leaf {
        quotas[i] = quota;
    }
}

// The accounts when a round opens: top down, one pass.
fn open_accounts(
    shape: &[u64; 195],
    active: u64,
    surplus: bool,
    sums: &[u32; 64],
    balance: &mut [u64; 64],
    residual: &mut [u64; 64],
)
    requires { CanOpen (tree_in shape.now) active (zip_accounts balance.old residual.old) × Summed (tree_in shape.now) active
        sums.now }
    ensures { zip_accounts balance.new residual.new
        ≡ opened_accounts (kind_is surplus) (tree_in shape.now) active (zip_accounts balance.old residual.old) }
{
    let leaves = shape::leaves(shape);
    let mut quotas = [0u64; 64];
    let root = open_root(surplus, Weight(sums[0]), account_of(0, balance, residual));
    quotas[0] = root.quota;
    let first = root.account;
    keep(0, first, balance, residual);
    for i in 1..=shape::count(shape) {
        let p = shape::parent(shape, i);
        let w = shape::weight(shape, i);
        let due = units::due(w, quotas[p]);
        let leaf = sets::has(leaves, i);
        let one = open_class(
            sets::has(active, i),
            leaf,
            Weight(sums[i]),
            due,
            account_of(i, balance, residual),
        );
        keep_quota(i, leaf, one.quota, &mut quotas);
        let account = one.account;
        keep(i, account, balance, residual);
    }
}

// Whether a class is inner and active and has a surplus.
fn class_surplus(on: bool, leaf: bool, sum: Weight, a: Account) -> bool
    requires { funds_of a ≤ most_size }
    ensures { result ≡ (not leaf && on && surplus_of (funds_of a) sum.0) }
{
    !leaf && on && units::surplus(a.funds(), sum)
}

// Whether the round that opens is a surplus round: some class has one, of the active inner classes one after the other.
fn is_surplus(
    shape: &[u64; 195],
    active: u64,
    sums: &[u32; 64],
    balance: &[u64; 64],
    residual: &[u64; 64],
) -> bool
    requires { CanOpen (tree_in shape.now) active (zip_accounts balance.now residual.now) × Summed (tree_in shape.now) active
        sums.now }
    ensures { kind_is result ≡ kind_of (tree_in shape.now) active (zip_accounts balance.now residual.now) }
{
    let last = shape::count(shape);
    let leaves = shape::leaves(shape);
    let inner = sets::both(active, !leaves);
    let mut i = sets::next(inner, 1);
    while i <= last {
        if class_surplus(
            sets::has(active, i),
            sets::has(leaves, i),
            Weight(sums[i]),
            account_of(i, balance, residual),
        ) {
            return true;
        }
        i = sets::next(inner, i + 1);
    }
    false
}

// The size in force when a round has opened: a main round sets it by the tree's rule, a surplus round leaves it.
fn size_after(surplus: bool, shape: &[u64; 195], active: u64, size: Bytes) -> Bytes
    requires { PlanRules (tree_in shape.now) × SizeRight (tree_in shape.now) size.0 }
    ensures { result.0 ≡ size_in (kind_is surplus) (tree_in shape.now) active size.0 }
{
    if surplus {
        return size;
    }
    if shape::follows(shape) {
        return active_size(shape, active);
    }
    size
}

// In a main round the root takes the difference between two sizes.
fn resize(surplus: bool, old: Bytes, size: Bytes, balance: &mut [u64; 64], residual: &mut [u64; 64])
    requires { (length (zip_accounts balance.old residual.old) ≡ 64)
        × (funds_of (account_of (zip_accounts balance.old residual.old) 0) ≤ most_size) × (size.0 ≤ most_size)
        × (surplus ≡ false → old.0 ≤ funds_of (account_of (zip_accounts balance.old residual.old) 0) + size.0) }
    ensures { zip_accounts balance.new residual.new
        ≡ resized (kind_is surplus) old.0 size.0 (zip_accounts balance.old residual.old) }
{
    if surplus {
        return;
    }
    let root = account_of(0, balance, residual);
    keep(0, root.take_size(old, size), balance, residual);
}

// What a round opens with: whether it is a surplus round, and the size in force.
#[derive(Drop)]
pub struct Begun {
    pub surplus: bool,
    pub size: Bytes,
}

// A round begins, and shares out nothing yet: which kind it is, the size in force, and in a main round the root takes the difference.
pub fn begin_round(
    shape: &[u64; 195],
    active: u64,
    sums: &[u32; 64],
    size: Bytes,
    balance: &mut [u64; 64],
    residual: &mut [u64; 64],
) -> Begun
    requires { CanResize (tree_in shape.now) active size.0 (zip_accounts balance.old residual.old)
        × Summed (tree_in shape.now) active sums.now }
    ensures { BeginsWith (tree_in shape.now) active size.0 (zip_accounts balance.old residual.old)
        result
        (zip_accounts balance.new residual.new) }
{
    let surplus = is_surplus(shape, active, sums, balance, residual);
    let after = size_after(surplus, shape, active, size);
    resize(surplus, size, after, balance, residual);
    Begun {
        surplus,
        size: after,
    }
}

// A round opens: it begins, the accounts are shared out, and the size in force is handed back.
pub fn open_round(
    shape: &[u64; 195],
    active: u64,
    sums: &[u32; 64],
    size: Bytes,
    balance: &mut [u64; 64],
    residual: &mut [u64; 64],
) -> Bytes
    requires { CanResize (tree_in shape.now) active size.0 (zip_accounts balance.old residual.old)
        × Summed (tree_in shape.now) active sums.now }
    ensures { OpensWith (tree_in shape.now) active size.0 (zip_accounts balance.old residual.old)
        result.0
        (zip_accounts balance.new residual.new) }
{
    let begun = begin_round(shape, active, sums, size, balance, residual);
    let after = begun.size;
    open_accounts(shape, active, begun.surplus, sums, balance, residual);
    after
}
