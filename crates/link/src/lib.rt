// The calls of the library (R1): a fresh link from a plan's tree, an arrival and a send. Entries for callers outside: they ask nothing
// (R196).
// The calls by value lend the link that they were given to the calls on a lent link, and hand it back with the answer.
// Serves demand 1 (numbers 11 to 15, a refused call hands the record back unaltered) and demand 2.
#![tactic(auto)]

ghost use Rattle.calls.specs.Fresh.{MakesFresh};
ghost use Rattle.calls.specs.Arrival.{Arrives};
ghost use Rattle.calls.specs.Send.{Sends};

pub use calls::{AfterArrival, AfterFresh, AfterSend, Arrival, Departure};
use checks::{Refusal, Refused};
use state::{Link, Packet};
use tree::Tree;

// A fresh link of a tree, any tree.
pub fn fresh(tree: Tree) -> AfterFresh
    ensures { MakesFresh tree result }
{
    if !shape::is_plan(tree) {
        let verdict = Err(Refused(Refusal::NotSound, 0));
        let link = Link::none();
        return AfterFresh { verdict, link };
    }
    let verdict = Ok(());
    let link = Link::fresh(tree);
    AfterFresh { verdict, link }
}

// An arrival: any class number, any length and any tag.
pub fn arrive(link: Link, class: usize, packet: Packet) -> AfterArrival
    ensures { Arrives link class packet result }
{
    let mut after = link;
    let answer = lent::arrive(&mut after, class, packet);
    AfterArrival {
        link: after,
        answer,
    }
}

// A send.
pub fn send(link: Link) -> AfterSend
    ensures { Sends link result }
{
    let mut left = link;
    let answer = lent::send(&mut left);
    AfterSend { link: left, answer }
}
