// Which rates a plan gives (R68 to R85): for a tree, a capacity and a request per leaf, what each class requests, what it gets,
// and what stays unallotted at it. The entry takes any of these (R196).
// Requests are added up in one pass from the highest class down. Then, class by class from the root upward in number, a class whose
// request is not met finds its F by halving between 0 and what it has plus 1: 30 probes at most, each over all classes.
#![tactic(auto)]

ghost use Rattle.std.specs.Prelude.{◌≡◌, ◌&&◌, ◌*◌, ◌^◌, ◌≤◌, ◌<◌, min, ltb, Ok};
ghost use Rattle.checks.specs.Check.{first_broken, class_by_class};
ghost use Rattle.allot.specs.Request.{entry};
ghost use Rattle.allot.specs.Share.{share_at, Fits, Largest};
ghost use Rattle.tree.specs.Class.{children_sum};
ghost use Rattle.allot.specs.Answer.{request_checks, range_checks, nothing_allotted, Tables, Rates};
ghost use Rattle.allot.specs.Steps.{RequestsInRange, Requested, Adding, Splits, Settles, Settled, child_gets};

use checks::{Refusal, Refused, Verdict};
use tree::Tree;
use units::Weight;

// The answer: a verdict, and by class number what each class requests, what it gets (class 0: what the root has) and what stays
// unallotted at it.
// R163: in an answer that refuses every further number is 0; so they stand beside the verdict, and not in a Result.
#[derive(Clone, Copy)]
pub struct Allotted {
    pub verdict: Verdict,
    pub requests: [u64; Tree::CLASSES],
    pub gets: [u64; Tree::CLASSES],
    pub unallotted: [u64; Tree::CLASSES],
}

// How a class shares out what it has: F where its request is not met, and what stays unallotted.
#[derive(Drop)]
struct Split {
    fair: u64,
    left: u64,
}

// What the classes settled so far get, with their F and what stays unallotted at them.
#[derive(Drop)]
struct Shares {
    gets: [u64; Tree::CLASSES],
    fair: [u64; Tree::CLASSES],
    unallotted: [u64; Tree::CLASSES],
}

// What a class gets at F: min(request, weight × F).
fn share(request: u64, weight: Weight, f: u64) -> u64
    requires { weight.0 * f < 2 ^ 64 }
    ensures { result ≡ min request (weight.0 * f) }
{
    request.min(u64::from(weight.0) * f)
}

// What the children of class p get together at F.
fn children_get(tree: Tree, requests: [u64; Tree::CLASSES], p: usize, f: u64) -> u64
    requires { Adding tree requests × (f ≤ 63_000_000_001) }
    ensures { result ≡ children_sum tree (share_at tree (entry requests) f) p }
{
    let mut sum = 0;
    for i in 1..=tree.count {
        if usize::from(tree.parent[i]) == p {
            sum += share(requests[i], tree.weight[i], f);
        }
    }
    sum
}

// F of class p, whose request is not met: halving keeps a number that fits and a higher one that does not.
fn fair_share(tree: Tree, requests: [u64; Tree::CLASSES], p: usize, has: u64) -> u64
    requires { Adding tree requests × (has < children_sum tree (entry requests) p) × (has ≤ 63_000_000_000) }
    ensures { Largest (Fits tree (entry requests) p has) result × (result ≤ has) }
{
    let mut low: u64 = 0;
    let mut high = has + 1;
    while low + 1 < high {
        let middle = low + (high - low) / 2;
        if children_get(tree, requests, p, middle) <= has {
            low = middle;
        } else {
            high = middle;
        }
    }
    low
}

// How class p shares out what it has.
fn class_split(tree: Tree, requests: [u64; Tree::CLASSES], p: usize, has: u64) -> Split
    requires { Adding tree requests × (p < 64) × (p ≤ tree.count) × (has ≤ 63_000_000_000) }
    ensures { Splits tree (entry requests) p has result.fair result.left }
{
    if sets::has(tree.leaves, p) {
        return Split { fair: 0, left: 0 };
    }
    if requests[p] <= has {
        return Split { fair: 0, left: 0 };
    }
    let f = fair_share(tree, requests, p, has);
    Split {
        fair: f,
        left: has - children_get(tree, requests, p, f),
    }
}

// What a child gets of a class that has so much: all of its request where the class's is met, else its share at F.
fn child_gets(has: u64, asked: u64, request: u64, weight: Weight, f: u64) -> u64
    requires { weight.0 * f < 2 ^ 64 }
    ensures { result ≡ child_gets has asked request weight.0 f }
{
    if asked <= has {
        request
    } else {
        share(request, weight, f)
    }
}

// Class i, which has so much, is settled.
fn settled(
    mut shares: Shares,
    tree: Tree,
    requests: [u64; Tree::CLASSES],
    i: usize,
    has: u64,
) -> Shares
    requires { Adding tree requests × (i < 64) × (i ≤ tree.count) × (has ≤ 63_000_000_000) }
    ensures { Settles tree requests shares i has result }
{
    let s = class_split(tree, requests, i, has);
    shares.gets[i] = has;
    shares.fair[i] = s.fair;
    shares.unallotted[i] = s.left;
    shares
}

// What each class requests: from the highest class down, each adds itself to its parent.
fn all_requests(tree: Tree, table: [u64; Tree::CLASSES]) -> [u64; Tree::CLASSES]
    requires { RequestsInRange tree table }
    ensures { Requested tree table result }
{
    let mut requests = [0u64; Tree::CLASSES];
    for i in (1..=tree.count).rev() {
        let p = usize::from(tree.parent[i]);
        let own = if sets::has(tree.leaves, i) {
            table[i]
        } else {
            requests[i]
        };
        requests[i] = own;
        requests[p] += own;
    }
    requests
}

// What every class gets, class by class upward.
fn share_out(tree: Tree, requests: [u64; Tree::CLASSES], has: u64) -> Shares
    requires { Adding tree requests × (has ≤ 63_000_000_000) }
    ensures { Settled tree (entry requests) has tree.count result }
{
    let none = Shares {
        gets: [0; Tree::CLASSES],
        fair: [0; Tree::CLASSES],
        unallotted: [0; Tree::CLASSES],
    };
    let mut shares = settled(none, tree, requests, 0, has);
    for i in 1..=tree.count {
        let p = usize::from(tree.parent[i]);
        let gets = child_gets(
            shares.gets[p],
            requests[p],
            requests[i],
            tree.weight[i],
            shares.fair[p],
        );
        shares = settled(shares, tree, requests, i, gets);
    }
    shares
}

// Whether the request of a class is refused: a leaf's, above 1,000,000,000.
fn bad_request(leaf: bool, request: u64) -> bool
    ensures { result ≡ (leaf && ltb 1_000_000_000 request) }
{
    leaf && 1_000_000_000 < request
}

// 21: the lowest-numbered leaf whose request is out of range.
fn request_fault(tree: Tree, table: [u64; Tree::CLASSES]) -> Verdict
    requires { tree.count ≤ 63 }
    ensures { result ≡ first_broken (class_by_class (request_checks tree table) tree.count) }
{
    for i in 1..=tree.count {
        let leaf = sets::has(tree.leaves, i);
        if bad_request(leaf, table[i]) {
            return Err(Refused(Refusal::BadRequest, i));
        }
    }
    Ok(())
}

// 20, then 21.
fn range_fault(tree: Tree, capacity: u64, table: [u64; Tree::CLASSES]) -> Verdict
    requires { tree.count ≤ 63 }
    ensures { result ≡ first_broken (range_checks tree capacity table) }
{
    if capacity < 1 {
        return Err(Refused(Refusal::BadCapacity, 0));
    }
    if 1_000_000_000 < capacity {
        return Err(Refused(Refusal::BadCapacity, 0));
    }
    request_fault(tree, table)
}

// A refusal allots 0 everywhere.
fn nothing_allotted(verdict: Verdict) -> Allotted
    ensures { result ≡ nothing_allotted verdict }
{
    Allotted {
        verdict,
        requests: [0; Tree::CLASSES],
        gets: [0; Tree::CLASSES],
        unallotted: [0; Tree::CLASSES],
    }
}

// The rates of a tree with everything in range.
fn allot(tree: Tree, capacity: u64, table: [u64; Tree::CLASSES]) -> Allotted
    requires { RequestsInRange tree table }
    ensures { (result.verdict ≡ Ok tt) × Tables tree capacity table result }
{
    let requests = all_requests(tree, table);
    let has = capacity.min(requests[0]);
    let shares = share_out(tree, requests, has);
    let gets = shares.gets;
    let unallotted = shares.unallotted;
    Allotted {
        verdict: Ok(()),
        requests,
        gets,
        unallotted,
    }
}

// Which rates a tree, any tree whatever, gives for a capacity and a table of requests by class number, of which only the leaves' are read.
pub fn rates(tree: Tree, capacity: u64, requests: [u64; Tree::CLASSES]) -> Allotted
    ensures { Rates tree capacity requests result }
{
    if !shape::is_plan(tree) {
        return nothing_allotted(Err(Refused(Refusal::NotSound, 0)));
    }
    let v = range_fault(tree, capacity, requests);
    if let Err(_) = v {
        return nothing_allotted(v);
    }
    allot(tree, capacity, requests)
}
