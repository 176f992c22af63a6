//! Jobs that are stopped by a disk that fails, and go on after a crash of it.
use crate::command::{Given, THREE_ROUNDS, left_by, rounds_in};
use std::alloc::Global;
use std::ops::Range;
use std::process::Abort;
use std::sync::Wait;
use std::sync::atomic::AtomicU64;
use std::sync::atomic::Ordering::SeqCst;
use std::test::Fail;
use std::thread::Threads;
use sz_disk::MemDisk;
use sz_io::Gate;

/// The job of three rounds, by one worker.
const JOB: Given<'static> = Given {
    words: "resume p f --shard 1 --workers 1",
    ..THREE_ROUNDS
};

/// What the job leaves that isn't stopped.
const ALL: &str = "0 c[] = 10000¶";

/// A gate that keeps the least and the greatest number of a shard.
#[derive(Drop)]
struct Shards {
    least: AtomicU64,
    greatest: AtomicU64,
}

impl Shards {
    fn new() -> Shards {
        Shards {
            least: AtomicU64::new(u64::MAX),
            greatest: AtomicU64::new(0),
        }
    }
}

impl Gate for Shards {
    fn at(&self, _ticket: u32, shard: u64, _number: u32) {
        self.least.fetch_min(shard, SeqCst);
        self.greatest.fetch_max(shard, SeqCst);
    }
}

/// How many shards a round of the job has, where more are left.
const ROUND: u64 = 4_096;

/// Runs the job on an empty disk of which a call fails, lets that crash, and runs the job again on what is left. The answer is whether the first
/// run was stopped.
fn is_stopped<R: Abort + Threads + Wait + Sync>(
    rt: &R,
    alloc: Global,
    call: u64,
    pick: u64,
) -> Result<bool, Fail> {
    let mut disk = MemDisk::new(alloc, &[], &[call])?;
    let shards = Shards::new();
    let left = left_by(rt, alloc, &JOB, &shards, &mut disk)?;
    let is_stopped = left.as_str() != ALL;
    if is_stopped {
        assert!(rt;
            left.as_str() == "16 ! disk failed",
            "call {call}, pick {pick}: {left}"
        );
    }
    let mut disk = disk.crash(pick);
    let rounds = rounds_in(disk.bytes());
    if is_stopped {
        let greatest = shards.greatest.load(SeqCst);
        assert!(rt;
            greatest < ROUND.saturating_mul(rounds.saturating_add(1)),
            "call {call}, pick {pick}: {greatest}, {rounds}"
        );
    }
    let shards = Shards::new();
    let left = left_by(rt, alloc, &JOB, &shards, &mut disk)?;
    assert!(rt; left.as_str() == ALL, "call {call}, pick {pick}: {left}");
    let least = shards.least.load(SeqCst);
    assert!(rt;
        least >= ROUND.saturating_mul(rounds),
        "call {call}, pick {pick}: {least}, {rounds}"
    );
    Ok(is_stopped)
}

/// Stops the job at each of these calls of the disk, and lets the disk crash so. The first 4 begin the journal, 4 more append the
/// job and each of its three rounds.
fn stop_at<R: Abort + Threads + Wait + Sync>(
    rt: &R,
    alloc: Global,
    calls: Range<u64>,
    pick: u64,
) -> Result<(), Fail> {
    for call in calls {
        let is_stopped = is_stopped(rt, alloc, call, pick)?;
        assert!(rt; is_stopped, "call {call}");
    }
    Ok(())
}

#[test]
fn a_job_that_makes_all_its_calls_is_not_stopped(rt: HostRuntime) -> Result<(), Fail> {
    for pick in 0..4 {
        let is_stopped = is_stopped(&rt, rt.alloc(), 20, pick)?;
        assert!(rt; !is_stopped);
    }
    Ok(())
}

#[test]
fn a_crash_takes_all_that_was_not_synced_at_the_start(rt: HostRuntime) -> Result<(), Fail> {
    stop_at(&rt, rt.alloc(), 0..4, 0)
}

#[test]
fn a_crash_takes_all_that_was_not_synced_of_the_job(rt: HostRuntime) -> Result<(), Fail> {
    stop_at(&rt, rt.alloc(), 4..8, 0)
}

#[test]
fn a_crash_takes_all_that_was_not_synced_in_the_first_round(rt: HostRuntime) -> Result<(), Fail> {
    stop_at(&rt, rt.alloc(), 8..12, 0)
}

#[test]
fn a_crash_takes_all_that_was_not_synced_in_the_second_round(rt: HostRuntime) -> Result<(), Fail> {
    stop_at(&rt, rt.alloc(), 12..16, 0)
}

#[test]
fn a_crash_takes_all_that_was_not_synced_in_the_third_round(rt: HostRuntime) -> Result<(), Fail> {
    stop_at(&rt, rt.alloc(), 16..20, 0)
}

#[test]
fn a_crash_leaves_all_that_was_written_at_the_start(rt: HostRuntime) -> Result<(), Fail> {
    stop_at(&rt, rt.alloc(), 0..4, 1)
}

#[test]
fn a_crash_leaves_all_that_was_written_of_the_job(rt: HostRuntime) -> Result<(), Fail> {
    stop_at(&rt, rt.alloc(), 4..8, 1)
}

#[test]
fn a_crash_leaves_all_that_was_written_in_the_first_round(rt: HostRuntime) -> Result<(), Fail> {
    stop_at(&rt, rt.alloc(), 8..12, 1)
}

#[test]
fn a_crash_leaves_all_that_was_written_in_the_second_round(rt: HostRuntime) -> Result<(), Fail> {
    stop_at(&rt, rt.alloc(), 12..16, 1)
}

#[test]
fn a_crash_leaves_all_that_was_written_in_the_third_round(rt: HostRuntime) -> Result<(), Fail> {
    stop_at(&rt, rt.alloc(), 16..20, 1)
}

#[test]
fn a_crash_opens_all_gates_that_were_not_synced_at_the_start(rt: HostRuntime) -> Result<(), Fail> {
    stop_at(&rt, rt.alloc(), 0..4, 2)
}

#[test]
fn a_crash_opens_all_gates_that_were_not_synced_of_the_job(rt: HostRuntime) -> Result<(), Fail> {
    stop_at(&rt, rt.alloc(), 4..8, 2)
}

#[test]
fn a_crash_opens_all_gates_that_were_not_synced_in_the_first_round(
    rt: HostRuntime,
) -> Result<(), Fail> {
    stop_at(&rt, rt.alloc(), 8..12, 2)
}

#[test]
fn a_crash_opens_all_gates_that_were_not_synced_in_the_second_round(
    rt: HostRuntime,
) -> Result<(), Fail> {
    stop_at(&rt, rt.alloc(), 12..16, 2)
}

#[test]
fn a_crash_opens_all_gates_that_were_not_synced_in_the_third_round(
    rt: HostRuntime,
) -> Result<(), Fail> {
    stop_at(&rt, rt.alloc(), 16..20, 2)
}

#[test]
fn a_crash_tears_what_was_not_synced_at_the_start(rt: HostRuntime) -> Result<(), Fail> {
    stop_at(&rt, rt.alloc(), 0..4, 3)
}

#[test]
fn a_crash_tears_what_was_not_synced_of_the_job(rt: HostRuntime) -> Result<(), Fail> {
    stop_at(&rt, rt.alloc(), 4..8, 3)
}

#[test]
fn a_crash_tears_what_was_not_synced_in_the_first_round(rt: HostRuntime) -> Result<(), Fail> {
    stop_at(&rt, rt.alloc(), 8..12, 3)
}

#[test]
fn a_crash_tears_what_was_not_synced_in_the_second_round(rt: HostRuntime) -> Result<(), Fail> {
    stop_at(&rt, rt.alloc(), 12..16, 3)
}

#[test]
fn a_crash_tears_what_was_not_synced_in_the_third_round(rt: HostRuntime) -> Result<(), Fail> {
    stop_at(&rt, rt.alloc(), 16..20, 3)
}
