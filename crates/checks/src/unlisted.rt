// A number that is not one of the 22 of docs/refusals.md. Serves demand 1: whatever number a caller hands in is told as it is.
ghost use Rattle.std.specs.Prelude.{◌≤◌, ◌<◌};

#[derive(Clone, Copy, Debug, PartialEq, Eq)]
pub struct Unlisted {
    pub number: u8,
    pub ghost beyond: { 1 ≤ number → 22 < number },
}
