// One record: its head, numbers 1 and 2, and the body of a class, read by its kind's reader.
// Serves demand 1.
ghost use Rattle.std.specs.Prelude.{◌≡◌, cond, ◌+◌, ◌≤◌, ◌<◌, length};
ghost use Rattle.plan.specs.Record.{byte_at, inner_class, leaf_class, class_of, number16, number32};
ghost use Rattle.plan.specs.Steps.{HeadSays};

use crate::kind;
use crate::kind::{RecordKind, Section};
use tree::Class;
use units::Weight;

// What is wrong with the head of a record that is not whole: its kind byte missing, its kind unknown there, or its body cut.
#[derive(Clone, Copy, Debug, PartialEq, Eq)]
pub enum HeadFault {
    NoKindByte,
    StrangeKind,
    CutBody,
}

// Numbers of two and of four bytes, big-endian.
pub(crate) fn number_16(s: &[u8], k: usize) -> u16
    requires { k + 2 ≤ length s.now }
    ensures { result ≡ number16 s.now k }
{
    u16::from_be_bytes([s[k], s[k + 1]])
}

pub(crate) fn number_32(s: &[u8], k: usize) -> u32
    requires { k + 4 ≤ length s.now }
    ensures { result ≡ number32 s.now k }
{
    u32::from_be_bytes([s[k], s[k + 1], s[k + 2], s[k + 3]])
}

// Kind 1: parent 1, weight 4.
fn inner_class(body: &[u8]) -> Class
    requires { length body.now ≡ 5 }
    ensures { result ≡ inner_class body.now }
{
    let weight = Weight(number_32(body, 1));
    Class {
        parent: body[0],
        weight,
        longest: 0,
        leaf: false,
    }
}

// Kind 2: parent 1, weight 4, longest 2.
fn leaf_class(body: &[u8]) -> Class
    requires { length body.now ≡ 7 }
    ensures { result ≡ leaf_class body.now }
{
    let weight = Weight(number_32(body, 1));
    Class {
        parent: body[0],
        weight,
        longest: number_16(body, 5),
        leaf: true,
    }
}

// The body of a class record, read by its kind's reader.
pub(crate) fn read_class(leaf: bool, body: &[u8]) -> Class
    requires { length body.now ≡ cond leaf 7 5 }
    ensures { result ≡ class_of leaf body.now }
{
    if leaf {
        return leaf_class(body);
    }
    inner_class(body)
}

// Kind 3: the rule 1.
pub(crate) fn read_rule(body: &[u8]) -> u8
    requires { length body.now ≡ 1 }
    ensures { result ≡ byte_at body.now 0 }
{
    body[0]
}

// Numbers 1 and 2 of the record at the front of the rest, or its kind.
pub(crate) fn read_head(rest: &[u8], section: Section) -> Result<RecordKind, HeadFault>
    ensures { HeadSays section rest.now result }
{
    if rest.len() == 0 {
        return Err(HeadFault::NoKindByte);
    }
    let kind = kind::record_kind(rest[0]);
    if !kind::stands_in(section, kind) {
        return Err(HeadFault::StrangeKind);
    }
    if rest.len() < kind::record_length(kind) {
        return Err(HeadFault::CutBody);
    }
    Ok(kind)
}
