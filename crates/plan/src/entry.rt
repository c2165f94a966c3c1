// An entry of a recording: an arrival, or a send with the claim directly after it.
// Serves demand 1: R286 to R294.
ghost use Rattle.std.specs.Prelude.{◌≡◌, false};
ghost use Rattle.plan.specs.Record.{kind_at, missing, cut};
ghost use Rattle.plan.specs.Entry.{claim_in, claim_after, entry_of};

use crate::kind::{RecordKind, Section};
use crate::record::HeadFault;
use crate::{Arrived, Claim, EntryRead, event, kind, record};
use checks::{Refusal, Refused};

// An entry: an arrival, or a send with its claim.
#[derive(Clone, Copy, Debug, PartialEq, Eq)]
pub enum Entry {
    Arrives(Arrived),
    Claims(Claim),
}

// A whole claim.
fn whole_claim(next: &[u8], kind: RecordKind) -> Claim
    requires { (cut next.now ≡ false) × (kind ≡ kind_at next.now) }
    ensures { result ≡ claim_in next.now }
{
    if !kind::gives_sent(kind) {
        return None;
    }
    let end = kind::record_length(kind);
    Some(event::read_arrival(&next[1..end]))
}

// A send, with what stands after it.
fn claim_after(next: &[u8]) -> EntryRead
    ensures { result ≡ claim_after next.now }
{
    match record::read_head(next, Section::AfterSend) {
        Err(HeadFault::NoKindByte) => Err(Refused(Refusal::Unpaired, 0)),
        Err(HeadFault::StrangeKind) => Err(Refused(Refusal::Unpaired, 0)),
        Err(HeadFault::CutBody) => Err(Refused(Refusal::Cut, 1)),
        Ok(kind) => Ok(Some(Entry::Claims(whole_claim(next, kind)))),
    }
}

// The entry of a whole record that is no claim.
pub(crate) fn whole_entry(rest: &[u8], kind: RecordKind) -> EntryRead
    requires { (missing rest.now ≡ false) × (cut rest.now ≡ false) × (kind ≡ kind_at rest.now) }
    ensures { result ≡ entry_of rest.now }
{
    if !kind::gives_arrival(kind) {
        return claim_after(&rest[1..]);
    }
    let end = kind::record_length(kind);
    Ok(Some(Entry::Arrives(event::read_arrival(&rest[1..end]))))
}
