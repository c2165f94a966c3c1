// The books of a link record on a line: its place, active set, size in force and running total, and B and R of each class; and its totals
// on another. They run, and are compared with the written-down ones.
use shown::word;
use state::{Account, Link, Totals};
use std::io;

// B and R of every class, from the root to the last.
fn accounts(rt: &impl Print, held: &[Account], last: usize) -> io::Result<()> {
    for account in held.iter().take(last.saturating_add(1)) {
        let balance = account.balance.0;
        let residual = account.residual.0;
        print!(rt; " {balance}+{residual}")?;
    }
    Ok(())
}

// The books of a link record.
pub(crate) fn show(rt: &impl Print, link: &Link) -> io::Result<()> {
    let round = &link.round;
    let place = round.place;
    let active = round.active;
    let size = round.size.0;
    let charged = link.totals.charged;
    print!(rt; "books place {place} active {active} size {size} charged {charged} accounts")?;
    accounts(rt, &round.accounts, link.tree.count)?;
    word(rt, b"\n")
}

// Packets and bytes of every class, from the root to the last.
fn each_total(rt: &impl Print, held: &Totals, last: usize) -> io::Result<()> {
    let both = held.packets.iter().zip(&held.bytes);
    for (packets, bytes) in both.take(last.saturating_add(1)) {
        print!(rt; " {packets}/{bytes}")?;
    }
    Ok(())
}

// The totals of a link record.
pub(crate) fn totals(rt: &impl Print, link: &Link) -> io::Result<()> {
    word(rt, b"totals")?;
    each_total(rt, &link.totals, link.tree.count)?;
    word(rt, b"\n")
}
