// Refusals: their numbers, which docs/refusals.md tells one by one, and the verdict of checks made in a fixed order (R4 to R7).
// Serves demand 1: a refusal is a number and a place, for the first check that fails.
#![tactic(auto)]

mod unlisted;

ghost use Rattle.std.specs.Prelude.{◌≡◌};
ghost use Rattle.checks.specs.Check.{number, number_of, place_of, first_broken, input_checks};

pub use unlisted::Unlisted;

// What is refused; each has the number that docs/refusals.md tells of (R7).
#[derive(Clone, Copy, Debug, PartialEq, Eq)]
pub enum Refusal {
    // The input ends before the kind byte, or inside a body.
    Cut,
    UnknownKind,
    // A 64th class record.
    TooMany,
    // Parent not lower than the class, or a leaf.
    BadParent,
    // Weight outside its range.
    BadWeight,
    // Longest outside its range.
    BadLongest,
    // Children's weights exceed their inner parent's.
    TooHeavy,
    // Inner class without a child.
    Childless,
    // No class at all.
    NoClass,
    // The program's input exceeds 65,536 bytes.
    TooLong,
    // The state is not sound.
    NotSound,
    // The class is not a leaf of the plan.
    NoLeaf,
    // Length 0 or above the leaf's longest.
    BadLength,
    // That leaf already holds 32 packets.
    Full,
    // Send, and no packet waits.
    NothingWaits,
    // The buffer is shorter than the plan.
    NoRoom,
    // Rule byte not 1 or 2.
    BadRule,
    // A rule record anywhere but first.
    LateRule,
    // A send of a recording without its claim, or a claim without its send.
    Unpaired,
    // The capacity is outside its range.
    BadCapacity,
    // A leaf's request is outside its range.
    BadRequest,
    // An inner class would need a weight above its range to be mended.
    NeedsMore,
    // What a caller made up: no check refuses with it.
    Other(Unlisted),
}

// What is refused, and the place of what breaks the rule.
#[derive(Clone, Copy, Debug, PartialEq, Eq)]
pub struct Refused(pub Refusal, pub usize);

// What checks say: all passed, or the first that failed.
pub type Verdict = Result<(), Refused>;

impl Refusal {
    // Its number.
    pub fn number(self) -> u8
        ensures { result ≡ number self }
    {
        match self {
            Refusal::Cut => 1,
            Refusal::UnknownKind => 2,
            Refusal::TooMany => 3,
            Refusal::BadParent => 4,
            Refusal::BadWeight => 5,
            Refusal::BadLongest => 6,
            Refusal::TooHeavy => 7,
            Refusal::Childless => 8,
            Refusal::NoClass => 9,
            Refusal::TooLong => 10,
            Refusal::NotSound => 11,
            Refusal::NoLeaf => 12,
            Refusal::BadLength => 13,
            Refusal::Full => 14,
            Refusal::NothingWaits => 15,
            Refusal::NoRoom => 16,
            Refusal::BadRule => 17,
            Refusal::LateRule => 18,
            Refusal::Unpaired => 19,
            Refusal::BadCapacity => 20,
            Refusal::BadRequest => 21,
            Refusal::NeedsMore => 22,
            Refusal::Other(unlisted) => unlisted.number,
        }
    }

    // The refusal that has a number.
    pub fn of(n: u8) -> Refusal
        ensures { number result ≡ n }
    {
        match n {
            1 => Refusal::Cut,
            2 => Refusal::UnknownKind,
            3 => Refusal::TooMany,
            4 => Refusal::BadParent,
            5 => Refusal::BadWeight,
            6 => Refusal::BadLongest,
            7 => Refusal::TooHeavy,
            8 => Refusal::Childless,
            9 => Refusal::NoClass,
            10 => Refusal::TooLong,
            11 => Refusal::NotSound,
            12 => Refusal::NoLeaf,
            13 => Refusal::BadLength,
            14 => Refusal::Full,
            15 => Refusal::NothingWaits,
            16 => Refusal::NoRoom,
            17 => Refusal::BadRule,
            18 => Refusal::LateRule,
            19 => Refusal::Unpaired,
            20 => Refusal::BadCapacity,
            21 => Refusal::BadRequest,
            22 => Refusal::NeedsMore,
            _ => Refusal::Other(Unlisted { number: n }),
        }
    }
}

// The number of a verdict: 0 where all passed.
pub fn number(v: Verdict) -> u8
    ensures { result ≡ number_of v }
{
    match v {
        Ok(()) => 0,
        Err(Refused(refusal, _)) => refusal.number(),
    }
}

// The place of a verdict: 0 where all passed.
pub fn place(v: Verdict) -> usize
    ensures { result ≡ place_of v }
{
    match v {
        Ok(()) => 0,
        Err(Refused(_, place)) => place,
    }
}

// The longest input that a program takes.
pub const MOST_INPUT: usize = 65_536;

// Number 10, which a program checks before all else: its input has so many bytes.
pub fn input_length(n: usize) -> Verdict
    ensures { result ≡ first_broken (input_checks n) }
{
    if MOST_INPUT < n {
        return Err(Refused(Refusal::TooLong, MOST_INPUT));
    }
    Ok(())
}
