//! Records of a file, cut from pieces of any size.
#![tactic(auto)]

mod cutter;
mod ending;
mod framer;
mod laid;
mod laws;
mod limits;
mod places;
mod record_at;
mod records;
mod shard;

pub use ending::Ending;
pub use framer::Framer;
pub use laws::{
    each_file_is_cut_once, records_are_few, the_rest_is_cut_so, what_is_unfinished_fixes_no_ending,
};
pub use limits::FrameLimits;
pub use records::Records;
pub use shard::{shard_end, shards_are_unique};
/// There was no memory: the one answer of each call that takes memory which no clause speaks of.
pub use std::alloc::AllocError as NoMemory;
