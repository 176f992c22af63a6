//! A claim on one of the tickets of a round.

/// A ticket that was drawn, and its shard.
#[derive(Clone, Copy, Debug, PartialEq, Eq)]
pub struct Claim {
    pub ticket: u32,
    pub shard: u32,
}
