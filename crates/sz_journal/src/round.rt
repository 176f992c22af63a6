//! A round of a job.

use sz_list::Items;
use sz_save_format::Saved;

/// What was done once a round was, and the tables of the round alone.
#[derive(Drop)]
pub struct RoundEntry {
    /// The number of the next shard, counted from 0: how many are done.
    pub next_shard: u64,
    /// How many records are done.
    pub records: u64,
    /// The place in the input where the last of them ends, with its newline where it has one.
    pub next_byte: u64,
    /// How many records were passed over so far.
    pub passed: u32,
    /// The tables of the round.
    pub saved: Saved,
}

/// Rounds, the first of them first.
pub type RoundEntries = Items<RoundEntry>;
