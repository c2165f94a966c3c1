// A number that is not that of a kind of events. Serves demand 1: whatever number a caller hands in is laid as it is.
ghost use Rattle.std.specs.Prelude.{◌≢◌};

#[derive(Clone, Copy, Debug, PartialEq, Eq)]
pub struct OtherKind {
    pub number: u64,
    pub ghost no_event: { (number ≢ 0) × (number ≢ 16) × (number ≢ 17) },
}
