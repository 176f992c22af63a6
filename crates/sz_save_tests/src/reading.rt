//! Which bytes are read as saved tables, and what is read.

use crate::files::{saved, unsaved};
use crate::joining::is_written;
use crate::samples::ONE_SUM;
use std::alloc::Global;
use std::test::Fail;
use sz_save::{Saved, SavedError, read_saved};
use sz_tabs::{Row, RowValue};
use sz_total::TableRows;

fn is_read(alloc: Global, bytes: &[u8]) -> bool {
    read_saved(alloc, bytes).is_ok()
}

// Whether the bytes are those of saved tables, and are written again.
fn is_read_and_written(alloc: Global, bytes: &[u8]) -> bool {
    match read_saved(alloc, bytes) {
        Ok(saved) => is_written(alloc, &saved, bytes),
        Err(_) => false,
    }
}

fn is_refused(alloc: Global, bytes: &[u8]) -> bool {
    matches!(&read_saved(alloc, bytes), Err(SavedError::NotSaved))
}

#[test]
fn files_of_each_kind_of_table_are_read_and_written(rt: HostRuntime) -> Result<(), Fail> {
    for (what, bytes) in saved() {
        assert!(rt; is_read_and_written(rt.alloc(), bytes), "at {what}");
    }
    Ok(())
}

#[test]
fn what_is_no_file_of_saved_tables_is_refused(rt: HostRuntime) -> Result<(), Fail> {
    for (what, bytes) in unsaved() {
        assert!(rt; is_refused(rt.alloc(), bytes), "at {what}");
    }
    Ok(())
}

// Whether each front of the bytes is refused.
fn are_cuts_refused(alloc: Global, bytes: &[u8]) -> bool {
    for end in 0..bytes.len() {
        if !is_refused(alloc, &bytes[..end]) {
            return false;
        }
    }
    true
}

#[test]
fn a_file_without_its_last_bytes_is_refused(rt: HostRuntime) -> Result<(), Fail> {
    for (what, bytes) in saved() {
        assert!(rt; are_cuts_refused(rt.alloc(), bytes), "at {what}");
    }
    Ok(())
}

// Whether the bytes are read or refused, and not for want of memory.
fn is_told(alloc: Global, bytes: &[u8]) -> bool {
    is_read(alloc, bytes) || is_refused(alloc, bytes)
}

// Whether that holds of the bytes with another one at each place in turn.
fn are_changes_told(alloc: Global, bytes: &mut [u8]) -> bool {
    for at in 0..bytes.len() {
        let byte = bytes[at];
        for other in 0..=255u8 {
            bytes[at] = other;
            if !is_told(alloc, bytes) {
                return false;
            }
        }
        bytes[at] = byte;
    }
    true
}

// The same of a copy.
fn are_told(alloc: Global, bytes: &[u8]) -> bool {
    match Vec::from_slice(alloc, bytes) {
        Ok(mut copy) => are_changes_told(alloc, &mut copy),
        Err(_) => false,
    }
}

#[test]
fn a_file_with_another_byte_is_read_or_refused(rt: HostRuntime) -> Result<(), Fail> {
    for (what, bytes) in saved() {
        assert!(rt;
            bytes.len() > 400 || are_told(rt.alloc(), bytes),
            "at {what}"
        );
    }
    Ok(())
}

// The sum in a row, where there is one alone.
fn sum_of(row: &Row) -> Option<i128> {
    match &row.value {
        RowValue::Sums(sums) => match sums.as_slice() {
            [sum] => Some(*sum),
            _ => None,
        },
        _ => None,
    }
}

// The sum under the first index list, where there is one row.
fn first_sum(rows: &TableRows) -> Option<i128> {
    match rows.as_slice() {
        [entry, ..] => match entry.rows.as_slice() {
            [row] => sum_of(row),
            _ => None,
        },
        [] => None,
    }
}

// Whether the file has this bound, and one table with this name and this sum.
fn has_sum(saved: &Saved, bound: u64, name: &str, sum: i128) -> bool {
    match (saved.decls().as_slice(), saved.tables().as_slice()) {
        ([table], [rows]) => {
            saved.bound() == bound && table.name.as_str() == name && first_sum(rows) == Some(sum)
        }
        _ => false,
    }
}

fn is_one_sum(alloc: Global, bytes: &[u8]) -> bool {
    match read_saved(alloc, bytes) {
        Ok(saved) => has_sum(&saved, 16, "c", 1),
        Err(_) => false,
    }
}

#[test]
fn a_sum_is_read_with_its_table_and_its_bound(rt: HostRuntime) -> Result<(), Fail> {
    assert!(rt; is_one_sum(rt.alloc(), ONE_SUM));
    Ok(())
}
