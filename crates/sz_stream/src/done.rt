//! What of an input is done.

/// The front of an input whose rounds are done: whole shards, from the first one on.
#[derive(Clone, Copy, Debug, PartialEq, Eq)]
pub struct Done {
    /// How many shards it has, which is the number of the next one, counted from 0.
    pub shards: u64,
    /// How many records it has.
    pub records: u64,
    /// How many bytes it has, lengths and newlines included: the place where its last record ends, which is that of the next byte, counted from 0.
    pub bytes: u64,
    /// How many of its records were passed over.
    pub passed: u32,
}

impl Done {
    /// Nothing of an input.
    pub const NOTHING: Done = Done {
        shards: 0,
        records: 0,
        bytes: 0,
        passed: 0,
    };
}
