// Both engines side by side on a plan and its events from standard input: each line of the run, then the balance and the residual of every
// class in the first engine's link and in the second's, and which classes have their quota in this round. Run on the listing and compared.
// It reads, calls and writes, event by event; what they have in common is proved in `published`. Serves demand 2.
#![tactic(auto)]

use published::Second;
use shown::word;
use state::{Account, Link};
use std::io;

// The accounts of the root and of so many classes.
fn accounts_line(
    rt: &impl Print,
    engine: &str,
    count: usize,
    accounts: &[Account],
) -> io::Result<()> {
    print!(rt; "{engine}")?;
    for account in accounts.iter().take(count.saturating_add(1)) {
        let balance = account.balance.0;
        let residual = account.residual.0;
        print!(rt; " {balance} {residual}")?;
    }
    word(rt, b"\n")
}

// The classes that have their quota.
fn asked_line(rt: &impl Print, asked: u64) -> io::Result<()> {
    word(rt, b"asked")?;
    for class in 0..Link::CLASSES {
        if sets::has(asked, class) {
            print!(rt; " {class}")?;
        }
    }
    word(rt, b"\n")
}

// Both links after a step.
fn both(rt: &impl Print, first: &Link, second: &Second) -> io::Result<()> {
    let count = first.tree.count;
    accounts_line(rt, "first", count, &first.round.accounts)?;
    accounts_line(rt, "second", count, &second.link.round.accounts)?;
    asked_line(rt, second.asked)
}

// The lines of a whole run, each with both links after it.
fn whole(rt: &impl Print, input: &[u8]) -> io::Result<()> {
    let mut one = run::first(input);
    let mut two = published_run::first(input);
    shown::print(rt, one.line)?;
    while one.more {
        both(rt, &one.link, &two.link)?;
        one = run::next(one.link, input, one.place);
        two = published_run::next(two.link, input, two.place);
        shown::print(rt, one.line)?;
    }
    Ok(())
}

fn main(rt: HostRuntime) -> io::Result<()> {
    let mut room = [0u8; checks::MOST_INPUT + 1];
    shown::with_input(&rt, &mut room, |input| whole(&rt, input))
}
