//! Which bytes are those of a round, and of which one.

use crate::rows::{RoundRow, rounds};
use std::alloc::Global;
use std::test::Fail;
use sz_journal::{EntryError, RoundEntry, read_round, write_round};

// Whether the round is written as these bytes.
fn is_written(alloc: Global, round: &RoundEntry, bytes: &[u8]) -> bool {
    match write_round(alloc, round) {
        Ok(written) => written.as_slice() == bytes,
        Err(_) => false,
    }
}

// Whether the round has the numbers of the row.
fn has_numbers(round: &RoundEntry, row: &RoundRow) -> bool {
    round.next_shard == row.next_shard
        && round.records == row.records
        && round.next_byte == row.next_byte
        && round.passed == row.passed
}

fn is_read(alloc: Global, row: &RoundRow) -> bool {
    match read_round(alloc, row.bytes) {
        Ok(round) => { has_numbers(&round, row) && is_written(alloc, &round, row.bytes) }
        Err(_) => false,
    }
}

fn is_refused(alloc: Global, bytes: &[u8]) -> bool {
    matches!(&read_round(alloc, bytes), Err(EntryError::NotEntry))
}

// Whether each front of the bytes is refused.
fn are_cuts_refused(alloc: Global, bytes: &[u8]) -> bool {
    for end in 0..bytes.len() {
        if !is_refused(alloc, &bytes[..end]) {
            return false;
        }
    }
    true
}

#[test]
fn rounds_are_read_and_written_again(rt: HostRuntime) -> Result<(), Fail> {
    for row in rounds() {
        assert!(rt; is_read(rt.alloc(), row), "at {}", row.what);
    }
    Ok(())
}

#[test]
fn a_round_without_its_last_bytes_is_refused(rt: HostRuntime) -> Result<(), Fail> {
    for row in rounds() {
        assert!(rt; are_cuts_refused(rt.alloc(), row.bytes), "at {}", row.what);
    }
    Ok(())
}
