//! Which bytes are those of a job, and of which one.

use crate::rows::{JobRow, jobs, no_jobs};
use std::alloc::Global;
use std::test::Fail;
use sz_journal::{EntryError, JobBytes, NoMemory, Numbers, Triples, read_job, write_job};
use sz_value::Octets;

// The job of a row.
fn job_of(alloc: Global, row: &JobRow) -> Result<JobBytes, NoMemory> {
    Ok(JobBytes {
        frame: row.frame,
        shard: row.shard,
        attempts: row.attempts,
        budget: row.budget,
        ignoring: row.ignoring,
        skip: row.skip,
        kills: Triples::copied(alloc, row.kills)?,
        doubled: Numbers::copied(alloc, row.doubled)?,
        program: Octets::from_slice(alloc, row.program)?,
        proto: Octets::from_slice(alloc, row.proto)?,
    })
}

// Whether the job is written as these bytes.
fn is_written(alloc: Global, job: &JobBytes, bytes: &[u8]) -> bool {
    match write_job(alloc, job) {
        Ok(written) => written.as_slice() == bytes,
        Err(_) => false,
    }
}

fn is_row_written(alloc: Global, row: &JobRow) -> bool {
    match job_of(alloc, row) {
        Ok(job) => is_written(alloc, &job, row.bytes),
        Err(_) => false,
    }
}

// Whether the bytes are those of a job, and are written again.
fn is_read_and_written(alloc: Global, bytes: &[u8]) -> bool {
    match read_job(alloc, bytes) {
        Ok(job) => is_written(alloc, &job, bytes),
        Err(_) => false,
    }
}

fn is_refused(alloc: Global, bytes: &[u8]) -> bool {
    matches!(&read_job(alloc, bytes), Err(EntryError::NotEntry))
}

// Whether each front of the bytes is refused.
fn are_cuts_refused(alloc: Global, bytes: &[u8]) -> bool {
    for end in 0..bytes.len() {
        if !is_refused(alloc, &bytes[..end]) {
            return false;
        }
    }
    true
}

#[test]
fn jobs_are_written_part_by_part(rt: HostRuntime) -> Result<(), Fail> {
    for row in jobs() {
        assert!(rt; is_row_written(rt.alloc(), row), "at {}", row.what);
    }
    Ok(())
}

#[test]
fn jobs_are_read_and_written_again(rt: HostRuntime) -> Result<(), Fail> {
    for row in jobs() {
        assert!(rt;
            is_read_and_written(rt.alloc(), row.bytes),
            "at {}",
            row.what
        );
    }
    Ok(())
}

#[test]
fn a_job_without_its_last_bytes_is_refused(rt: HostRuntime) -> Result<(), Fail> {
    for row in jobs() {
        assert!(rt; are_cuts_refused(rt.alloc(), row.bytes), "at {}", row.what);
    }
    Ok(())
}

#[test]
fn what_is_no_job_is_refused(rt: HostRuntime) -> Result<(), Fail> {
    for (what, bytes) in no_jobs() {
        assert!(rt; is_refused(rt.alloc(), bytes), "at {what}");
    }
    Ok(())
}
