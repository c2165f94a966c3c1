// A leaf without packets turns inactive, and so on up: each class that does gives what it has to its parent.
// Serves demand 2.
ghost use Rattle.std.specs.Prelude.{◌≡◌, true, ◌<◌};
ghost use Rattle.rules.specs.Sending.{given_up, turns_off};
ghost use Rattle.rules.specs.Steps.{Fit};
ghost use Rattle.tree.specs.declared.Tree.{Tree};
ghost use Rattle.tree.specs.Class.{parent_of, is_class};
ghost use Rattle.tree.specs.Rules.{PlanRules};
ghost use Rattle.tree.specs.Sum.{some_to};
ghost use Rattle.shape.specs.Shape.{tree_in, Families};
ghost use Rattle.rules.specs.Active.{active_child};
ghost use Rattle.state.specs.Account.{zip_accounts};
ghost use Rattle.steps.specs.Fields.{books_of};

use state::lent_accounts::{account_of, keep};

// Class i turns inactive and gives what it holds to its parent's residual.
fn give_up(
    i: usize,
    p: usize,
    active: u64,
    balance: &mut [u64; 64],
    residual: &mut [u64; 64],
) -> u64
    requires { Fit (zip_accounts balance.old residual.old) × (i < 64) × (p < 64) }
    ensures { (t : Tree) → parent_of t i ≡ p
        → books_of result balance.new residual.new
        ≡ given_up t i (books_of active balance.old residual.old) }
{
    let a = account_of(i, balance, residual);
    keep(i, a.return_balance(), balance, residual);
    let b = account_of(p, balance, residual);
    keep(p, b.receive(a.funds()), balance, residual);
    sets::without(active, i)
}

// Whether class p has an active child left.
fn has_active_child(children: &[u64; 64], active: u64, p: usize) -> bool
    requires { p < 64 }
    ensures { (t : Tree) → PlanRules t → Families t children.now → result ≡ some_to (active_child t active p) t.count }
{
    sets::both(active, children[p]) != 0
}

// A leaf turns inactive, and so on up.
pub(crate) fn turn_off(
    leaf: usize,
    active: u64,
    shape: &[u64; 195],
    children: &[u64; 64],
    balance: &mut [u64; 64],
    residual: &mut [u64; 64],
) -> u64
    requires { PlanRules (tree_in shape.now) × Families (tree_in shape.now) children.now × (is_class (tree_in shape.now) leaf ≡ true)
        × Fit (zip_accounts balance.old residual.old) }
    ensures { books_of result balance.new residual.new
        ≡ turns_off 63 (tree_in shape.now) leaf (books_of active balance.old residual.old) }
{
    let mut active = active;
    let mut i = leaf;
    loop {
        let p = shape::parent(shape, i);
        active = give_up(i, p, active, balance, residual);
        if has_active_child(children, active, p) {
            return active;
        }
        if p == 0 {
            return sets::without(active, 0);
        }
        i = p;
    }
}
