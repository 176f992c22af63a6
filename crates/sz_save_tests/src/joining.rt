//! What two files of saved tables are together.

use crate::pairs::{joined, limit, other};
use crate::samples::ONE_SUM;
use std::alloc::Global;
use std::test::Fail;
use sz_print::text_rows;
use sz_save::{JoinError, Saved, SavedError, join, read_saved, write_saved};

// The joined state of two files, or why there is none; a file that isn't read counts as want of memory.
fn join_files(alloc: Global, one: &[u8], second: &[u8]) -> Result<Saved, JoinError> {
    match read_saved(alloc, one) {
        Ok(one) => join_with(alloc, &one, second),
        Err(_) => Err(JoinError::NoMemory),
    }
}

fn join_with(alloc: Global, one: &Saved, second: &[u8]) -> Result<Saved, JoinError> {
    match read_saved(alloc, second) {
        Ok(second) => join(alloc, one, &second),
        Err(SavedError::NotSaved) | Err(SavedError::NoMemory) => Err(JoinError::NoMemory),
    }
}

/// Whether the tables are written as these bytes.
pub(crate) fn is_written(alloc: Global, saved: &Saved, bytes: &[u8]) -> bool {
    match write_saved(alloc, saved) {
        Ok(written) => written.as_slice() == bytes,
        Err(_) => false,
    }
}

// Whether the two files are together these bytes, whichever comes first.
fn are_joined(alloc: Global, one: &[u8], second: &[u8], bytes: &[u8]) -> bool {
    is_joined(alloc, one, second, bytes) && is_joined(alloc, second, one, bytes)
}

fn is_joined(alloc: Global, one: &[u8], second: &[u8], bytes: &[u8]) -> bool {
    match join_files(alloc, one, second) {
        Ok(both) => is_written(alloc, &both, bytes),
        Err(_) => false,
    }
}

#[test]
fn files_are_joined_either_way(rt: HostRuntime) -> Result<(), Fail> {
    for (what, one, second, bytes) in joined() {
        assert!(rt; are_joined(rt.alloc(), one, second, bytes), "at {what}");
    }
    Ok(())
}

fn are_other(alloc: Global, one: &[u8], second: &[u8]) -> bool {
    matches!(&join_files(alloc, one, second), Err(JoinError::Other))
}

#[test]
fn files_with_other_declarations_are_refused(rt: HostRuntime) -> Result<(), Fail> {
    for (what, one, second) in other() {
        assert!(rt; are_other(rt.alloc(), one, second), "at {what}");
    }
    Ok(())
}

fn are_too_large(alloc: Global, one: &[u8], second: &[u8]) -> bool {
    matches!(&join_files(alloc, one, second), Err(JoinError::Limit))
}

#[test]
fn files_with_bounds_that_are_too_large_are_refused(rt: HostRuntime) -> Result<(), Fail> {
    for (what, one, second) in limit() {
        assert!(rt; are_too_large(rt.alloc(), one, second), "at {what}");
    }
    Ok(())
}

/// Whether this is the text of the tables.
pub(crate) fn has_text(alloc: Global, saved: &Saved, text: &str) -> bool {
    let decls = saved.decls();
    let tables = saved.tables();
    if tables.len() != decls.len() {
        return false;
    }
    match text_rows(alloc, decls, tables) {
        Ok(printed) => printed.as_slice() == text.as_bytes(),
        Err(_) => false,
    }
}

fn is_printed(alloc: Global, one: &[u8], second: &[u8], text: &str) -> bool {
    match join_files(alloc, one, second) {
        Ok(both) => has_text(alloc, &both, text),
        Err(_) => false,
    }
}

#[test]
fn a_joined_sum_is_printed(rt: HostRuntime) -> Result<(), Fail> {
    assert!(rt; is_printed(rt.alloc(), ONE_SUM, ONE_SUM, "c[] = 2\n"));
    Ok(())
}
