// The table of kinds: kind byte, length of the body, where the kind may stand, what its record gives.
// A kind is one row here and one in specs/Kind.
// Serves demand 1.
ghost use Rattle.std.specs.Prelude.{◌≡◌, ◌+◌, ◌≤◌};
ghost use Rattle.plan.specs.Kind.{kind_row, record_kind, stands_in, gives_class};
ghost use Rattle.plan.specs.Kind.{gives_leaf, gives_rule, gives_arrival, gives_claim, gives_sent};

// What a record gives: the end of the plan, a class, a rule, an arrival, a send, a claim that a packet was sent or that none waited, or
// nothing where its kind is unknown.
#[derive(Clone, Copy, Debug, PartialEq, Eq)]
pub enum Given {
    End,
    Inner,
    Leaf,
    Rule,
    Arrival,
    Send,
    SentClaim,
    IdleClaim,
    Nothing,
}

// A row of the table of kinds: the length of the body, whether the kind may stand inside a plan, among events and in a recording, what its
// record gives.
#[derive(Clone, Copy, Debug, PartialEq, Eq)]
pub struct RecordKind {
    pub body: u8,
    pub plan: bool,
    pub events: bool,
    pub recordings: bool,
    pub gives: Given,
}

// Where a record stands: inside a plan, among events, in a recording, and there directly after a send.
#[derive(Clone, Copy, Debug, PartialEq, Eq)]
pub enum Section {
    Plan,
    Events,
    Recordings,
    AfterSend,
}

// A row of the table.
fn kind_row(body: u8, plan: bool, events: bool, recordings: bool, gives: Given) -> RecordKind
    ensures { result ≡ kind_row body plan events recordings gives }
{
    RecordKind {
        body,
        plan,
        events,
        recordings,
        gives,
    }
}

// The table of kinds.
pub(crate) fn record_kind(byte: u8) -> RecordKind
    ensures { result ≡ record_kind byte }
{
    match byte {
        0 => kind_row(0, true, false, false, Given::End),
        1 => kind_row(5, true, false, false, Given::Inner),
        2 => kind_row(7, true, false, false, Given::Leaf),
        3 => kind_row(1, true, false, false, Given::Rule),
        16 => kind_row(7, false, true, true, Given::Arrival),
        17 => kind_row(0, false, true, true, Given::Send),
        18 => kind_row(7, false, false, true, Given::SentClaim),
        19 => kind_row(0, false, false, true, Given::IdleClaim),
        _ => kind_row(0, false, false, false, Given::Nothing),
    }
}

// Whether a kind may stand there.
pub(crate) fn stands_in(section: Section, kind: RecordKind) -> bool
    ensures { result ≡ stands_in section kind }
{
    match section {
        Section::Plan => kind.plan,
        Section::Events => kind.events,
        Section::Recordings => kind.recordings,
        Section::AfterSend => gives_claim(kind),
    }
}

// Whether a record gives a class, whether that class is a leaf, whether it gives a rule, and whether an arrival.
pub(crate) fn gives_class(kind: RecordKind) -> bool
    ensures { result ≡ gives_class kind }
{
    matches!(kind.gives, Given::Inner | Given::Leaf)
}

pub(crate) fn gives_leaf(kind: RecordKind) -> bool
    ensures { result ≡ gives_leaf kind }
{
    matches!(kind.gives, Given::Leaf)
}

pub(crate) fn gives_rule(kind: RecordKind) -> bool
    ensures { result ≡ gives_rule kind }
{
    matches!(kind.gives, Given::Rule)
}

pub(crate) fn gives_arrival(kind: RecordKind) -> bool
    ensures { result ≡ gives_arrival kind }
{
    matches!(kind.gives, Given::Arrival)
}

// Whether a record gives a claim, and whether that says that a packet was sent.
pub(crate) fn gives_claim(kind: RecordKind) -> bool
    ensures { result ≡ gives_claim kind }
{
    matches!(kind.gives, Given::SentClaim | Given::IdleClaim)
}

pub(crate) fn gives_sent(kind: RecordKind) -> bool
    ensures { result ≡ gives_sent kind }
{
    matches!(kind.gives, Given::SentClaim)
}

// The bytes of a whole record.
pub(crate) fn record_length(kind: RecordKind) -> usize
    ensures { (result ≡ 1 + kind.body) × (result ≤ 256) }
{
    1 + usize::from(kind.body)
}
