//! What is to be done: a program with its statics, and the shards of an input.
use sz_gen_stmt::Compiled;
use sz_list::Items;
use sz_value::Slots;
use sz_words::{Kills, Twice};

/// What the attempts of a run have in common.
pub struct Job {
    /// The program.
    pub compiled: Compiled,
    /// The values of its statics.
    pub statics: Slots,
    /// The ticks that a record may take: 1 to 2^32.
    pub budget: u64,
    /// How many records that fault are passed over at most.
    pub skip: u32,
    /// The most attempts on a shard: 1 to 8.
    pub attempts: u32,
    /// The attempts that die.
    pub kills: Kills,
    /// The shards with a second ticket.
    pub twice: Twice,
}

impl Drop for Job {
    fn drop(self) {
        let Job {
            compiled: _,
            statics: _,
            budget: _,
            skip: _,
            attempts: _,
            kills: _,
            twice: _,
        } = self;
    }
}

/// Where a shard lies among records that are at hand.
#[derive(Clone, Copy, Debug, PartialEq, Eq)]
pub struct Shard {
    /// The number of its first record in the input, counted from 1.
    pub first: u64,
    /// The place of its first record among those at hand, counted from 0.
    pub start: usize,
    /// The place after its last record.
    pub end: usize,
}

/// Shards, in the order of the input.
///
/// Contracts see a list.
pub type ShardRanges = Items<Shard>;
