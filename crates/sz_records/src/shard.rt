//! Where a shard ends.
ghost use Rattle.std.specs.Prelude.{◌≡◌, ◌-◌, ◌^◌, ◌<◌, ◌≤◌, true, length, drop, IfSome, IfNone};
ghost use Rattle.sz_records.specs.Shards.{bytes_in, EndsShard, IsOpenAt, ShardsAreUnique};

use crate::records::Records;

/// A shard ends with the record by which its records hold as many bytes.
const SHARD_BYTES: usize = 16_777_216;

/// The place after the last record of the shard that begins at `from`. A shard has at most `most` records. `at_end` says that no
/// more records come.
///
/// Records are looked at one by one only where so many of them as a shard may have hold the bytes of one; else two ends tell, so that the call
/// may be made again after each record.
pub fn shard_end(records: &Records, from: usize, most: u32, at_end: bool) -> Option<usize>
    requires most { 1 ≤ most }
    ensures some { IfSome result (λ end. EndsShard records.now.items from most at_end end) }
    ensures none { IfNone result (IsOpenAt records.now.items from most at_end) }
{
    let all = records.len();
    if from >= all {
        return None;
    }
    let left = all - from;
    if left < most as usize {
        return last_end(records, from, most, at_end);
    }
    let end = from + most as usize;
    if records.bytes_between(from, end) < SHARD_BYTES {
        return Some(end);
    }
    walked_end(records, from, most, at_end)
}

/// The same where fewer records are left than a shard may have.
fn last_end(records: &Records, from: usize, most: u32, at_end: bool) -> Option<usize>
    requires some { from < length records.now.items }
    requires few { length records.now.items - from < most }
    ensures some { IfSome result (λ end. EndsShard records.now.items from most at_end end) }
    ensures none { IfNone result (IsOpenAt records.now.items from most at_end) }
{
    let all = records.len();
    if records.bytes_between(from, all) >= SHARD_BYTES {
        return walked_end(records, from, most, at_end);
    }
    if at_end { Some(all) } else { None }
}

/// The place after the last record of the shard that begins at `from`, found record by record.
fn walked_end(records: &Records, from: usize, most: u32, at_end: bool) -> Option<usize>
    requires most { 1 ≤ most }
    ensures some { IfSome result (λ end. EndsShard records.now.items from most at_end end) }
    ensures none { IfNone result (IsOpenAt records.now.items from most at_end) }
{
    if from >= records.len() {
        return None;
    }
    let mut bytes = 0;
    for last in from..records.len() {
        bytes += records.get(last).len();
        if last - from + 1 >= most as usize || bytes >= SHARD_BYTES {
            return Some(last + 1);
        }
    }
    if at_end { Some(records.len()) } else { None }
}

/// Records are cut into shards in one way.
pub fn shards_are_unique()
    ensures unique { ShardsAreUnique }
{}
