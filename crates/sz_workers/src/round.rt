//! Rounds, and how they end.
use sz_attempt::ShardRanges;
use sz_machine::Fault;
use sz_records::Records;
use sz_total::Total;

/// Shards that are run together.
pub struct Round {
    /// The records at hand. Those of the round are the records of its shards.
    pub records: Records,
    /// The shards, in order: at most 4,096.
    pub shards: ShardRanges,
    /// The number of the first of them in the input, counted from 0.
    pub first_shard: u64,
    /// How many records in front of the round were passed over.
    pub passed: u32,
}

impl Drop for Round {
    fn drop(self) {
        let Round {
            records: _,
            shards: _,
            first_shard: _,
            passed: _,
        } = self;
    }
}

/// How a round ends.
#[derive(Drop)]
pub enum RoundEnd<'a> {
    /// No shard decides: the tables of all that the round's records emit, and how many of them fault and were passed over.
    Tables(Total<'a>, u32),
    /// More records fault than may be passed over, and no shard up to the one with the first too many is lost.
    Fault {
        /// The number in the input of the first record too many, counted from 1.
        record_no: u64,
        fault: Fault,
    },
    /// The first shard that decides is lost: its number in the input, counted from 0.
    Lost(u64),
}
