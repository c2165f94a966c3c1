// Whether the three clauses on who has asked hold of a record, any record whose tree obeys the plan rules. Named for specs/Right.
// Serves demand 1: number 11.
ghost use Rattle.std.specs.Prelude.{◌≡◌, ◌&&◌, ◌*◌, leb};
ghost use Rattle.checks.specs.Check.{Exactly};
ghost use Rattle.tree.specs.Rules.{PlanRules};
ghost use Rattle.published.specs.Second.{means};
ghost use Rattle.asking.specs.Right.{FlagsRight, YetToAsk, AskedRight};

use active::weight_sums;
use published::Second;
use tree::Tree;
use units::Weight;

// What the clauses read of one class.
#[derive(Drop)]
pub struct Flags {
    pub class: bool,
    pub leaf: bool,
    pub on: bool,
    pub asked: bool,
    pub up: bool,
    pub behind: bool,
    pub pays: bool,
}

// A class can pay a quota for each unit of what it owes; no product that might not fit.
fn can_pay(owed: Weight, quota: u64, balance: u64) -> bool
    ensures { result ≡ leb (owed.0 * quota) balance }
{
    owed.0 == 0 || quota <= balance / owed.0 as u64
}

// The clauses at one class.
fn flags_right(v: Flags) -> bool
    ensures { Exactly result (FlagsRight v) }
{
    if v.asked {
        v.pays && (!v.on || !v.class || v.up)
    } else {
        !(v.leaf && v.on && v.behind)
    }
}

// Is the number that of a class?
fn is_class(i: usize, count: usize) -> bool
    ensures { result ≡ (leb 1 i && leb i count) }
{
    1 <= i && i <= count
}

// Who is active and has no quota yet.
fn yet_to_ask(active: u64, asked: u64) -> u64
    ensures { YetToAsk active asked result }
{
    sets::both(active, !asked)
}

// Who has asked is right at every class.
pub fn asked_right(second: Second) -> bool
    requires { PlanRules second.link.tree }
    ensures { Exactly result (AskedRight (means second)) }
{
    let link = second.link;
    let tree = link.tree;
    let accounts = link.round.accounts;
    let asked = second.asked;
    let quotas = second.quotas;
    let shape = shape::shape_of(tree);
    let owed = weight_sums(&shape, yet_to_ask(link.round.active, asked));
    let parent = tree.parent;
    for i in 0..Tree::CLASSES {
        let a = accounts[i];
        let o = owed[i];
        let p = usize::from(parent[i]);
        let v = Flags {
            class: is_class(i, tree.count),
            leaf: sets::has(tree.leaves, i),
            on: sets::has(link.round.active, i),
            asked: sets::has(asked, i),
            up: sets::has(asked, p),
            behind: i < link.round.place,
            pays: can_pay(o, quotas[i], a.balance.0),
        };
        if !flags_right(v) {
            return false;
        }
    }
    true
}
