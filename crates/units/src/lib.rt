// Weights and bytes as two types (R8), and the only four places where they meet (R9 to R13); what a packet costs (R14 to R18).
// Serves demand 2: a share is never taken for a byte count.
#![tactic(auto)]

ghost use Rattle.std.specs.Prelude.{◌≡◌, ◌+◌, ◌-◌, ◌*◌, ◌^◌, ◌<◌, ◌≤◌, leb};
ghost use Rattle.units.specs.Unit.{due_of, quota_of, surplus_of, size_of};
ghost use Rattle.units.specs.Cost.{cost_of};

// A class's share of its parent, or a sum of such shares: a bare number.
#[derive(Clone, Copy, Debug, PartialEq, Eq, PartialOrd, Ord)]
pub struct Weight(pub u32);

// Bytes: a balance, a residual, a round size, what a packet costs.
#[derive(Clone, Copy, Debug, PartialEq, Eq, PartialOrd, Ord)]
pub struct Bytes(pub u64);

impl Weight {
    // Two shares together.
    pub fn plus(self, other: Weight) -> Weight
        requires { self.0 + other.0 < 2 ^ 32 }
        ensures { result.0 ≡ self.0 + other.0 }
    {
        Weight(self.0 + other.0)
    }
}

impl Bytes {
    // Two byte counts together.
    pub fn plus(self, other: Bytes) -> Bytes
        requires { self.0 + other.0 < 2 ^ 64 }
        ensures { result.0 ≡ self.0 + other.0 }
    {
        Bytes(self.0 + other.0)
    }

    // A byte count less another.
    pub fn less(self, other: Bytes) -> Bytes
        requires { other.0 ≤ self.0 }
        ensures { result.0 ≡ self.0 - other.0 }
    {
        Bytes(self.0 - other.0)
    }

    // Whether a balance covers a cost.
    pub fn covers(self, cost: Bytes) -> bool
        ensures { result ≡ leb cost.0 self.0 }
    {
        cost <= self
    }
}

// Weight times fair quota gives bytes.
pub fn due(weight: Weight, quota: u64) -> Bytes
    requires { weight.0 * quota < 2 ^ 64 }
    ensures { result.0 ≡ due_of weight.0 quota }
{
    Bytes(u64::from(weight.0) * quota)
}

// Balance over a weight sum, rounded down, gives a fair quota; 0 where the sum is 0.
pub fn quota(balance: Bytes, sum: Weight) -> u64
    ensures { result ≡ quota_of balance.0 sum.0 }
{
    balance.0.checked_div(u64::from(sum.0)).unwrap_or(0)
}

// The surplus test reads a weight sum as bytes.
pub fn surplus(funds: Bytes, sum: Weight) -> bool
    ensures { result ≡ surplus_of funds.0 sum.0 }
{
    u64::from(sum.0) <= funds.0
}

// The round size adds weights to bytes.
pub fn size(weights: Weight, packets: Bytes) -> Bytes
    requires { weights.0 + packets.0 < 2 ^ 64 }
    ensures { result.0 ≡ size_of weights.0 packets.0 }
{
    Bytes(u64::from(weights.0) + packets.0)
}

// The charge of a packet of this length, whose frame on the wire has at least 64 bytes: the one way from a length to bytes.
pub fn cost(length: u16) -> Bytes
    ensures { result.0 ≡ cost_of length }
{
    Bytes((u64::from(length) + 4).max(64) + 20)
}
