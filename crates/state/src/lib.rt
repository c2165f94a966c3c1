// The link's state (R86 to R100): accounts, waiting places and the record that holds them; the steps on each stand in the modules.
// Serves demand 2: each step is one equation, and what a state means is its packets in order, not where they lie.
#![tactic(auto)]

mod accounts;
pub mod lent_accounts;
pub mod mark;
pub mod queue;

ghost use Rattle.std.specs.Prelude.{◌≡◌};
ghost use Rattle.tree.specs.Rules.{PlanRules};
ghost use Rattle.state.specs.State.{fresh_link, no_link, no_totals};

use tree::Tree;
use units::Bytes;

// What a class holds: a balance B, and for the root and inner classes a residual R.
#[derive(Clone, Copy, Debug, PartialEq, Eq)]
pub struct Account {
    pub balance: Bytes,
    pub residual: Bytes,
}

// A packet as it comes and goes.
#[derive(Clone, Copy, Debug, PartialEq, Eq)]
pub struct Packet {
    pub length: u16,
    pub tag: u32,
}

// One that waits: its mark is the running total when it was accepted.
#[derive(Clone, Copy, Debug, PartialEq, Eq)]
pub struct Waiting {
    pub length: u16,
    pub tag: u32,
    pub mark: u64,
}

// The totals of each class number, the packets and their charged bytes that wait at the leaves at or below it; and the running total of the
// bytes charged on the link, 64 bits that wrap.
#[derive(Clone, Copy, Debug, PartialEq, Eq)]
pub struct Totals {
    pub packets: [u64; Link::CLASSES],
    pub bytes: [u64; Link::CLASSES],
    pub charged: u64,
}

// Where a link stands in its round: the round size in force, the set of active classes, the place, and each class's account.
#[derive(Clone, Copy, Debug, PartialEq, Eq)]
pub struct Round {
    pub size: Bytes,
    pub active: u64,
    pub place: usize,
    pub accounts: [Account; Link::CLASSES],
}

// The link: class i's packets lie in the 32 places from i * 32 on, the first of them at its start, and the others follow round the 32.
// Its round stands last: a small field that joins it moves no other.
#[derive(Clone, Copy, Debug, PartialEq, Eq)]
pub struct Link {
    pub tree: Tree,
    pub lengths: [u16; 2048],
    pub tags: [u32; 2048],
    pub marks: [u64; 2048],
    pub start: [u8; Link::CLASSES],
    pub held: [u8; Link::CLASSES],
    pub totals: Totals,
    pub round: Round,
}

impl Totals {
    // Nothing waits, and nothing was charged.
    pub fn none() -> Totals
        ensures { result ≡ no_totals }
    {
        let packets = [0u64; Link::CLASSES];
        let bytes = [0u64; Link::CLASSES];
        Totals {
            packets,
            bytes,
            charged: 0,
        }
    }
}

impl Link {
    // Class numbers, the root's among them.
    pub const CLASSES: usize = Tree::CLASSES;
    // Waiting places of each class.
    pub const PLACES: usize = 32;

    // A fresh link: root balance Q, every other B and R zero, queues empty, nothing active, place 64.
    pub fn fresh(tree: Tree) -> Link
        requires { PlanRules tree }
        ensures { result ≡ fresh_link tree }
    {
        let size = shape::round_size(tree);
        let none = Account::none();
        let root = Account {
            balance: size,
            residual: Bytes(0),
        };
        let mut accounts = [none; Link::CLASSES];
        accounts[0] = root;
        let lengths = [0u16; 2048];
        let tags = [0u32; 2048];
        let marks = [0u64; 2048];
        let start = [0u8; Link::CLASSES];
        let held = [0u8; Link::CLASSES];
        let round = Round {
            size,
            active: 0,
            place: Link::CLASSES,
            accounts,
        };
        Link {
            tree,
            lengths,
            tags,
            marks,
            start,
            held,
            totals: Totals::none(),
            round,
        }
    }

    // The link without classes, all its numbers 0.
    pub fn none() -> Link
        ensures { result ≡ no_link }
    {
        let none = Account::none();
        let accounts = [none; Link::CLASSES];
        let lengths = [0u16; 2048];
        let tags = [0u32; 2048];
        let marks = [0u64; 2048];
        let start = [0u8; Link::CLASSES];
        let held = [0u8; Link::CLASSES];
        let round = Round {
            size: Bytes(0),
            active: 0,
            place: 0,
            accounts,
        };
        Link {
            tree: Tree::none(),
            lengths,
            tags,
            marks,
            start,
            held,
            totals: Totals::none(),
            round,
        }
    }
}
