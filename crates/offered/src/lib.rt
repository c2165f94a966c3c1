// What a packet would be promised if it came now (R285): what its arrival would answer, and the bound of demand 3 with the bytes that it
// would answer. An entry for callers outside: it asks nothing (R196). Serves demands 1 and 3.
#![tactic(auto)]

ghost use Rattle.offered.specs.Offer.{Offers};

use checks::Verdict;
use state::{Link, Packet};
use units::Bytes;

// What is offered: the verdict of the arrival, D, the charged bytes that would then wait in its leaf, and how many bytes the whole link
// would
// send at most until the packet has gone. Both are 0 where it would be refused.
// R163: in an answer that refuses every further number is 0; so they stand beside the verdict, and not in a Result.
#[derive(Clone, Copy)]
pub struct Offered {
    pub verdict: Verdict,
    pub bytes: Bytes,
    pub wait: Bytes,
}

// What a packet of a length to a class would be promised if it came now: any link, any class number, any length. Nothing changes.
pub fn if_accepted(link: Link, class: usize, length: u16) -> Offered
    ensures { Offers link class length result }
{
    let tree = link.tree;
    let after = link::arrive(link, class, Packet { length, tag: 0 });
    let answer = after.answer;
    let verdict = answer.verdict;
    let bytes = answer.bytes;
    if let Ok(()) = verdict {
        let promise = promised::longest_wait(tree, class, bytes);
        let wait = promise.bytes;
        return Offered {
            verdict,
            bytes,
            wait,
        };
    }
    Offered {
        verdict,
        bytes,
        wait: Bytes(0),
    }
}
