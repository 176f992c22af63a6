//! A gate that each attempt passes, so that a test can watch or hold one.

/// What is called before each attempt.
pub trait Gate {
    /// Attempt `number` (counted from 0) of the shard `shard` begins, under the ticket `ticket`.
    fn at(&self, ticket: u32, shard: u64, number: u32);
}

/// A gate that does nothing.
#[derive(Clone, Copy, Debug)]
pub struct NoGate;

impl Gate for NoGate {
    fn at(&self, _ticket: u32, _shard: u64, _number: u32) {}
}
