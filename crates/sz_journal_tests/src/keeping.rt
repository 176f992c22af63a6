//! Journals on disks in memory: what they hold once rounds were appended, and what is left of them where calls fail and a crash follows.
ghost use Rattle.std.specs.Prelude.{IsTrue};
ghost use Rattle.sz_journal_tests.specs.Ready.{IsReady};

use crate::following::{SUM_16, SUM_32, Step, job, round_of};
use std::alloc::Global;
use std::test::Fail;
use sz_disk::MemDisk;
use sz_io::NoMemory;
use sz_journal::{JobBytes, Journal, OpenError, RoundEntry, may_be_next, open_journal};
use sz_save_format::{Saved, read_saved};
use sz_types::TableDecls;

// More calls than a run makes on its disk: opening takes four and the entries take four each.
const CALLS: u64 = 24;

// The numbers of the images that crashes leave here.
const PICKS: u64 = 4;

// The rounds of the job.
const STEPS: &[Step] = &[
    Step {
        next_shard: 1,
        records: 1,
        next_byte: 2,
        passed: 0,
        saved: SUM_16,
        follows: true,
    },
    Step {
        next_shard: 2,
        records: 3,
        next_byte: 6,
        passed: 1,
        saved: SUM_32,
        follows: true,
    },
    Step {
        next_shard: 3,
        records: 4,
        next_byte: 8,
        passed: 1,
        saved: SUM_16,
        follows: true,
    },
];

// The journal of the job without a round.
const BEGUN: &[u8] = &[
    1, 0, 0, 0, 0, 0, 0, 0, 54, 83, 90, 74, 79, 66, 48, 48, 49, 0, 0, 0, 0, 1, 0, 0, 0, 1, 0, 0, 0,
    0, 0, 0, 0, 16, 0, 0, 0, 0, 1, 0, 0, 0, 0, 0, 0, 0, 0, 0, 0, 0, 0, 0, 0, 0, 0, 0, 0, 0, 0, 0,
    0, 0, 0, 0,
];

// The same, whose last gate is open, though nothing stands behind it.
const OPEN_END: &[u8] = &[
    1, 0, 0, 0, 0, 0, 0, 0, 54, 83, 90, 74, 79, 66, 48, 48, 49, 0, 0, 0, 0, 1, 0, 0, 0, 1, 0, 0, 0,
    0, 0, 0, 0, 16, 0, 0, 0, 0, 1, 0, 0, 0, 0, 0, 0, 0, 0, 0, 0, 0, 0, 0, 0, 0, 0, 0, 0, 0, 0, 0,
    0, 0, 0, 1,
];

// Bytes that are no journal yet.
const EMPTY: &[&[u8]] = &[&[], &[0], &[1], &[0, 255], &[2, 1, 1]];

fn steps() -> &'static [Step] {
    STEPS
}

fn empty() -> &'static [&'static [u8]] {
    EMPTY
}

// Appends a round, if it may be the next one and no call fails.
fn is_added(
    journal: &mut Journal,
    disk: &mut MemDisk,
    job: &JobBytes,
    decls: &TableDecls,
    round: RoundEntry,
) -> bool
    requires { IsReady job.now decls.now journal.old disk.old }
    ensures { IsTrue result → IsReady job.now decls.now journal.new disk.new }
{
    if !may_be_next(job, decls, journal.rounds(), &round) {
        return false;
    }
    match journal.append(disk, round) {
        Ok(()) => true,
        Err(_) => false,
    }
}

fn is_step_added(
    alloc: Global,
    journal: &mut Journal,
    disk: &mut MemDisk,
    job: &JobBytes,
    decls: &TableDecls,
    step: &Step,
) -> bool
    requires { IsReady job.now decls.now journal.old disk.old }
    ensures { IsTrue result → IsReady job.now decls.now journal.new disk.new }
{
    match read_saved(alloc, step.saved) {
        Ok(saved) => is_added(journal, disk, job, decls, round_of(step, saved)),
        Err(_) => false,
    }
}

// Appends the rounds that the journal lacks. It gives the number of rounds that stand in it for sure.
fn add_all(
    alloc: Global,
    journal: &mut Journal,
    disk: &mut MemDisk,
    job: &JobBytes,
    decls: &TableDecls,
) -> usize
    requires { IsReady job.now decls.now journal.old disk.old }
{
    let steps = steps();
    let first = journal.rounds().len();
    for place in first..steps.len() {
        if !is_step_added(alloc, journal, disk, job, decls, &steps[place]) {
            return place;
        }
    }
    steps.len()
}

// Opens the journal and appends the rounds that it lacks. It gives the number of rounds that stand in it for sure.
fn run(alloc: Global, disk: &mut MemDisk, job: &JobBytes, decls: &TableDecls) -> usize {
    match open_journal(alloc, disk, job, decls) {
        Ok(mut journal) => add_all(alloc, &mut journal, disk, job, decls),
        Err(_) => 0,
    }
}

// The number of rounds of the journal, or why it isn't opened.
fn opened(
    alloc: Global,
    disk: &mut MemDisk,
    job: &JobBytes,
    decls: &TableDecls,
) -> Result<usize, OpenError> {
    match open_journal(alloc, disk, job, decls) {
        Ok(journal) => Ok(journal.rounds().len()),
        Err(error) => Err(error),
    }
}

// The same of a disk that holds these bytes.
fn opened_bytes(
    alloc: Global,
    bytes: &[u8],
    job: &JobBytes,
    decls: &TableDecls,
) -> Result<usize, OpenError> {
    match MemDisk::new(alloc, bytes, &[]) {
        Ok(mut disk) => opened(alloc, &mut disk, job, decls),
        Err(NoMemory) => Err(OpenError::NoMemory),
    }
}

// Whether a run whose disk fails at one call, and then crashes, has kept its rounds, and goes on to the bytes of a run that wasn't stopped.
fn goes_on(alloc: Global, decls: &TableDecls, whole: &[u8], fail: u64, pick: u64) -> bool {
    let Ok(mut disk) = MemDisk::new(alloc, &[], &[fail]) else {
        return false;
    };
    let job = job(alloc);
    let sure = run(alloc, &mut disk, &job, decls);
    let mut crashed = disk.crash(pick);
    let Ok(kept) = opened(alloc, &mut crashed, &job, decls) else {
        return false;
    };
    sure <= kept
        && kept - sure <= 1
        && run(alloc, &mut crashed, &job, decls) == steps().len()
        && crashed.bytes() == whole
}

// Whether it does so for each call that fails, and each crash.
fn all_go_on(alloc: Global, decls: &TableDecls, whole: &[u8]) -> bool {
    for fail in 0..CALLS {
        for pick in 0..PICKS {
            if !goes_on(alloc, decls, whole, fail, pick) {
                return false;
            }
        }
    }
    true
}

fn is_damaged(answer: Result<usize, OpenError>) -> bool {
    matches!(answer, Err(OpenError::Damaged(_)))
}

// Whether each cut of a whole journal of two bytes or more is damaged.
fn are_cuts_damaged(alloc: Global, decls: &TableDecls, whole: &[u8]) -> bool {
    let job = job(alloc);
    for end in 2..whole.len() {
        if !is_damaged(opened_bytes(alloc, &whole[..end], &job, decls)) {
            return false;
        }
    }
    true
}

// Tables as the job's program declares them, and a disk with its whole journal.
#[derive(Drop)]
struct Whole {
    saved: Saved,
    disk: MemDisk,
}

fn finished(alloc: Global) -> Option<Whole> {
    let Ok(saved) = read_saved(alloc, SUM_16) else {
        return None;
    };
    let Ok(mut disk) = MemDisk::new(alloc, &[], &[]) else {
        return None;
    };
    if run(alloc, &mut disk, &job(alloc), saved.decls()) != steps().len() {
        return None;
    }
    Some(Whole { saved, disk })
}

fn is_stopped_and_resumed(alloc: Global) -> bool {
    match finished(alloc) {
        Some(whole) => all_go_on(alloc, whole.saved.decls(), whole.disk.bytes()),
        None => false,
    }
}

fn is_cut(alloc: Global) -> bool {
    match finished(alloc) {
        Some(whole) => are_cuts_damaged(alloc, whole.saved.decls(), whole.disk.bytes()),
        None => false,
    }
}

// Whether the whole journal isn't opened for a job with larger shards.
fn is_other(alloc: Global) -> bool {
    let mut other = job(alloc);
    other.shard = 2;
    match finished(alloc) {
        Some(whole) => {
            opened_bytes(alloc, whole.disk.bytes(), &other, whole.saved.decls())
                == Err(OpenError::OtherJob)
        }
        None => false,
    }
}

// Whether a journal of these bytes begins with the job.
fn is_begun(alloc: Global, bytes: &[u8], decls: &TableDecls) -> bool {
    match MemDisk::new(alloc, bytes, &[]) {
        Ok(mut disk) => {
            opened(alloc, &mut disk, &job(alloc), decls) == Ok(0) && disk.bytes().starts_with(BEGUN)
        }
        Err(_) => false,
    }
}

fn are_all_begun(alloc: Global) -> bool {
    match read_saved(alloc, SUM_16) {
        Ok(saved) => empty()
            .iter()
            .all(|bytes| is_begun(alloc, bytes, saved.decls())),
        Err(_) => false,
    }
}

// Whether a disk of these bytes is answered so, where the job's program declares the table of the rounds. It isn't where that table can't be read.
fn is_answered(alloc: Global, bytes: &[u8], expected: Result<usize, OpenError>) -> bool {
    match read_saved(alloc, SUM_16) {
        Ok(saved) => opened_bytes(alloc, bytes, &job(alloc), saved.decls()) == expected,
        Err(_) => false,
    }
}

#[test]
fn a_stopped_job_goes_on_behind_its_rounds(rt: HostRuntime) -> Result<(), Fail> {
    assert!(rt; is_stopped_and_resumed(rt.alloc()));
    Ok(())
}

#[test]
fn what_is_empty_begins_with_the_job(rt: HostRuntime) -> Result<(), Fail> {
    assert!(rt; are_all_begun(rt.alloc()));
    Ok(())
}

#[test]
fn another_job_is_told(rt: HostRuntime) -> Result<(), Fail> {
    assert!(rt; is_other(rt.alloc()));
    Ok(())
}

#[test]
fn a_journal_that_was_cut_is_damaged(rt: HostRuntime) -> Result<(), Fail> {
    assert!(rt; is_cut(rt.alloc()));
    Ok(())
}

#[test]
fn the_place_of_the_damage_is_that_of_the_gate(rt: HostRuntime) -> Result<(), Fail> {
    assert!(rt; is_answered(rt.alloc(), &[1, 0], Err(OpenError::Damaged(0))));
    assert!(rt; is_answered(rt.alloc(), BEGUN, Ok(0)));
    assert!(rt; is_answered(rt.alloc(), OPEN_END, Err(OpenError::Damaged(63))));
    Ok(())
}
