//! A generated file, record by record.
ghost use Rattle.std.specs.Prelude.{◌≡◌, ◌≤◌, IfOk};
ghost use Rattle.sz_feed.specs.Feed.{file_of};

use crate::NoMemory;
use crate::draws::Draws;
use crate::record::{MOST_BYTES, push_record};
use std::alloc::Global;

/// The most records of a generated file.
pub const MOST_RECORDS: u32 = 1_000_000;

/// The file of the seed with this many records, at most 1,000,000: each is a varint length and a message by the public
/// wire format of protocol buffers, but for about one in seven, which are no messages. All memory is taken at first.
pub fn feed(alloc: Global, seed: u64, records: u32) -> Result<Vec<u8>, NoMemory>
    requires within { records ≤ 1000000 }
    ensures value { IfOk result (λ bytes. bytes.items ≡ file_of seed records) }
{
    let mut file = Vec::with_capacity(alloc, records as usize * MOST_BYTES)?;
    let mut draws = Draws::new(seed);
    for _ in 0..records {
        let a = draws.draw();
        let b = draws.draw();
        let c = draws.draw();
        push_record(&mut file, a, b, c)?;
    }
    Ok(file)
}
