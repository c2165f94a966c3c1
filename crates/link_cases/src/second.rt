// The second engine's calls on the record, a line for each answer, and who has asked and the quotas on a line of their own (demands 1 and
// 2); they run, and are compared with the written-down answers.
use crate::{
    Coming, answered, arrival_in, link_fields, print_fresh, print_same, print_sound, sent,
};
use published_link::Second;
use shown::word;
use state::Link;
use std::io;

// A link of the first engine, in which no class has a quota.
pub(crate) fn unasked(link: Link) -> Second {
    let quotas = [0u64; 64];
    Second {
        link,
        asked: 0,
        quotas,
    }
}

// The record with another link of the first engine inside.
pub(crate) fn with_link(mut second: Second, link: Link) -> Second {
    second.link = link;
    second
}

// The same record.
pub(crate) fn same(a: &Second, b: &Second) -> bool {
    a.asked == b.asked && a.quotas == b.quotas && a.link == b.link
}

// A fresh link of the record's tree.
pub(crate) fn fresh(rt: &impl Print, second: Second) -> io::Result<Second> {
    let got = published_link::fresh(second.link.tree);
    print_fresh(rt, got.verdict, &got.link.link)?;
    Ok(got.link)
}

// An arrival, and whether the record came back the very same.
pub(crate) fn arrive(rt: &impl Print, before: Second, command: &[u8]) -> io::Result<Second> {
    let Coming { class, packet } = arrival_in(command);
    let got = published_link::arrive(before, class, packet);
    answered(rt, got.answer)?;
    print_same(rt, same(&before, &got.link))?;
    Ok(got.link)
}

// A send, and whether the record came back the very same.
pub(crate) fn send(rt: &impl Print, before: Second) -> io::Result<Second> {
    let got = published_link::send(before);
    sent(rt, got.answer)?;
    print_same(rt, same(&before, &got.link))?;
    Ok(got.link)
}

// Whether the record is sound.
pub(crate) fn sound(rt: &impl Print, second: Second) -> io::Result<Second> {
    print_sound(rt, published_link::is_sound(second))?;
    Ok(second)
}

// The quota of every class, from the root to the last.
fn each_quota(rt: &impl Print, quotas: &[u64], last: usize) -> io::Result<()> {
    for quota in quotas.iter().take(last.saturating_add(1)) {
        print!(rt; " {quota}")?;
    }
    Ok(())
}

// Who has asked, and the quotas.
pub(crate) fn quotas(rt: &impl Print, second: Second) -> io::Result<Second> {
    let asked = second.asked;
    print!(rt; "asked {asked} quotas")?;
    each_quota(rt, &second.quotas, second.link.tree.count)?;
    word(rt, b"\n")?;
    Ok(second)
}

// A value stored into one number of the record: field 19 is who has asked, 20 the quota at a class number, all others are of the link.
pub(crate) fn stored(mut second: Second, field: u64, i: usize, value: u64) -> Second {
    match field {
        19 => second.asked = value,
        20 if i < 64 => second.quotas[i] = value,
        _ => second.link = link_fields::stored(second.link, field, i, value),
    }
    second
}
