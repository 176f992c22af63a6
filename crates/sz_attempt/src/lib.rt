//! One attempt of one shard: a program run for the shard's records, unless the attempt dies.
#![tactic(auto)]

mod ends;
mod job;
mod laws;
mod shard_run;

pub use ends::{AttemptEnd, Faults, Skipped};
pub use job::{Job, Shard, ShardRanges};
pub use laws::{
    attempts_end_as_listed, emits_of_records_are_few, kills_are_of_different_attempts,
    shards_are_lost_with_all_attempts,
};
pub use shard_run::{attempt, attempt_in};
