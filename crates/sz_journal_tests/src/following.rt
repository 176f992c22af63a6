//! Which rounds may follow each other.
ghost use Rattle.sz_journal.specs.Rounds.{AreRounds};

use std::alloc::Global;
use std::test::Fail;
use sz_journal::{
    JobBytes, Numbers, RoundEntries, RoundEntry, Triples, last_progress, may_be_next,
};
use sz_save_format::{Saved, read_saved};
use sz_types::{Frame, TableDecls};
use sz_value::Octets;

// A sum in a table `c`, under bounds of 16 and of 32, and in a table `d` under a bound of 16; and one for more records than a job may have.
pub(crate) const SUM_16: &[u8] = &[
    83, 90, 84, 65, 66, 76, 69, 49, 0, 0, 0, 0, 0, 0, 0, 16, 0, 0, 0, 1, 0, 0, 0, 1, 99, 0, 0, 0,
    0, 0, 0, 0, 0, 0, 2, 0, 0, 0, 0, 0, 0, 0, 0, 0,
];

pub(crate) const SUM_32: &[u8] = &[
    83, 90, 84, 65, 66, 76, 69, 49, 0, 0, 0, 0, 0, 0, 0, 32, 0, 0, 0, 1, 0, 0, 0, 1, 99, 0, 0, 0,
    0, 0, 0, 0, 0, 0, 2, 0, 0, 0, 0, 0, 0, 0, 0, 0,
];

const OTHER_16: &[u8] = &[
    83, 90, 84, 65, 66, 76, 69, 49, 0, 0, 0, 0, 0, 0, 0, 16, 0, 0, 0, 1, 0, 0, 0, 1, 100, 0, 0, 0,
    0, 0, 0, 0, 0, 0, 2, 0, 0, 0, 0, 0, 0, 0, 0, 0,
];

const SUM_MOST: &[u8] = &[
    83, 90, 84, 65, 66, 76, 69, 49, 0, 0, 0, 7, 255, 255, 255, 208, 0, 0, 0, 1, 0, 0, 0, 1, 99, 0,
    0, 0, 0, 0, 0, 0, 0, 0, 2, 0, 0, 0, 0, 0, 0, 0, 0, 0,
];

// A round that is tried behind those before it that follow, and whether it follows, for a job with a budget of 16 that passes over one record.
pub(crate) struct Step {
    pub(crate) next_shard: u64,
    pub(crate) records: u64,
    pub(crate) next_byte: u64,
    pub(crate) passed: u32,
    pub(crate) saved: &'static [u8],
    pub(crate) follows: bool,
}

const STEPS: &[Step] = &[
    // a bound of two records for one
    Step {
        next_shard: 1,
        records: 1,
        next_byte: 2,
        passed: 0,
        saved: SUM_32,
        follows: false,
    },
    // no shard
    Step {
        next_shard: 0,
        records: 1,
        next_byte: 2,
        passed: 0,
        saved: SUM_16,
        follows: false,
    },
    // the first record
    Step {
        next_shard: 1,
        records: 1,
        next_byte: 2,
        passed: 0,
        saved: SUM_16,
        follows: true,
    },
    // the same round again
    Step {
        next_shard: 1,
        records: 1,
        next_byte: 2,
        passed: 0,
        saved: SUM_16,
        follows: false,
    },
    // tables of another program
    Step {
        next_shard: 2,
        records: 2,
        next_byte: 4,
        passed: 0,
        saved: OTHER_16,
        follows: false,
    },
    // more shards than records
    Step {
        next_shard: 3,
        records: 2,
        next_byte: 4,
        passed: 0,
        saved: SUM_16,
        follows: false,
    },
    // more records passed over than the job says
    Step {
        next_shard: 2,
        records: 2,
        next_byte: 4,
        passed: 2,
        saved: SUM_16,
        follows: false,
    },
    // no byte more
    Step {
        next_shard: 2,
        records: 2,
        next_byte: 2,
        passed: 0,
        saved: SUM_16,
        follows: false,
    },
    // more than 2^40 bytes
    Step {
        next_shard: 2,
        records: 2,
        next_byte: 1_099_511_627_777,
        passed: 0,
        saved: SUM_16,
        follows: false,
    },
    // two records
    Step {
        next_shard: 2,
        records: 3,
        next_byte: 6,
        passed: 1,
        saved: SUM_32,
        follows: true,
    },
    // fewer records passed over
    Step {
        next_shard: 3,
        records: 4,
        next_byte: 8,
        passed: 0,
        saved: SUM_16,
        follows: false,
    },
    // the greatest number of bytes
    Step {
        next_shard: 3,
        records: 4,
        next_byte: 1_099_511_627_775,
        passed: 1,
        saved: SUM_16,
        follows: true,
    },
    // more than 2^31 records
    Step {
        next_shard: 4,
        records: 2_147_483_649,
        next_byte: 1_099_511_627_776,
        passed: 1,
        saved: SUM_MOST,
        follows: false,
    },
];

fn steps() -> &'static [Step] {
    STEPS
}

pub(crate) fn job(alloc: Global) -> JobBytes {
    JobBytes {
        frame: Frame::Lines,
        shard: 1,
        attempts: 1,
        budget: 16,
        ignoring: false,
        skip: 1,
        kills: Triples::new(alloc),
        doubled: Numbers::new(alloc),
        program: Octets::from_vec(Vec::new(alloc)),
        proto: Octets::from_vec(Vec::new(alloc)),
    }
}

pub(crate) fn round_of(step: &Step, saved: Saved) -> RoundEntry {
    RoundEntry {
        next_shard: step.next_shard,
        records: step.records,
        next_byte: step.next_byte,
        passed: step.passed,
        saved,
    }
}

// Whether the round of the step follows where it should, with which it joins the others.
fn is_told(
    alloc: Global,
    job: &JobBytes,
    decls: &TableDecls,
    rounds: &mut RoundEntries,
    step: &Step,
) -> bool
    requires { AreRounds job.now decls.now rounds.old }
    ensures { AreRounds job.now decls.now rounds.new }
{
    match read_saved(alloc, step.saved) {
        Ok(saved) => is_taken(job, decls, rounds, round_of(step, saved), step.follows),
        Err(_) => false,
    }
}

fn is_taken(
    job: &JobBytes,
    decls: &TableDecls,
    rounds: &mut RoundEntries,
    round: RoundEntry,
    follows: bool,
) -> bool
    requires { AreRounds job.now decls.now rounds.old }
    ensures { AreRounds job.now decls.now rounds.new }
{
    if !may_be_next(job, decls, rounds, &round) {
        return !follows;
    }
    match rounds.push(round) {
        Ok(()) => follows,
        Err(_) => false,
    }
}

fn are_told(alloc: Global, job: &JobBytes, decls: &TableDecls) -> bool {
    let mut rounds = RoundEntries::new(alloc);
    for step in steps() {
        if !is_told(alloc, job, decls, &mut rounds, step) {
            return false;
        }
    }
    let last = last_progress(&rounds);
    rounds.len() == 3 && last.shards == 3 && last.records == 4 && last.passed == 1
}

fn are_all_told(alloc: Global) -> bool {
    match read_saved(alloc, SUM_16) {
        Ok(saved) => are_told(alloc, &job(alloc), saved.decls()),
        Err(_) => false,
    }
}

#[test]
fn rounds_follow_by_their_numbers_tables_and_bounds(rt: HostRuntime) -> Result<(), Fail> {
    assert!(rt; are_all_told(rt.alloc()));
    Ok(())
}
