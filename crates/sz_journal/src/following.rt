//! Which rounds may follow each other.
ghost use Rattle.std.specs.Prelude.{◌≡◌, ◌↔◌, ◌++◌, ◌∷◌, [], ◌*◌, ◌^◌, ◌≤◌, List, IsTrue};
ghost use Rattle.sz_journal.specs.Rounds as format;
ghost use Rattle.sz_journal.specs.Rounds.{GoesOn, MayFollow, AreRounds};
ghost use Rattle.sz_journal.specs.declared.round.RoundEntry as entries;

use crate::job::JobBytes;
use crate::progress::{Progress, last_progress};
use crate::round::{RoundEntries, RoundEntry};
use sz_save::same_decls;
use sz_types::TableDecls;

/// The most records of a job.
const MOST_RECORDS: u64 = 1 << 31;

/// The most bytes of an input.
const MOST_BYTES: u64 = 1 << 40;

/// The greatest bound of all rounds together.
const MOST_BOUND: u64 = 1 << 63;

/// Whether the round may be the next one of the job, whose program declares these tables, behind these rounds.
pub fn may_be_next(
    job: &JobBytes,
    decls: &TableDecls,
    rounds: &RoundEntries,
    round: &RoundEntry,
) -> bool
    requires { AreRounds job.now decls.now rounds.now }
    ensures value { IsTrue result ↔ AreRounds job.now decls.now (rounds.now ++ round.now ∷ []) }
{
    can_follow(job, decls, last_progress(rounds), round)
}

/// The same behind rounds that have come so far.
pub(crate) fn can_follow(
    job: &JobBytes,
    decls: &TableDecls,
    before: Progress,
    round: &RoundEntry,
) -> bool
    ensures value { (rounds : List entries.RoundEntry) → AreRounds job.now decls.now rounds → before ≡ format.last_progress rounds
        → (IsTrue result ↔ AreRounds job.now decls.now (rounds ++ round.now ∷ [])) }
{
    may_follow(job, decls, before, round) && is_bound(round.records, job.budget)
}

// Whether the round may follow where the job has come so far.
fn may_follow(job: &JobBytes, decls: &TableDecls, before: Progress, round: &RoundEntry) -> bool
    ensures value { IsTrue result ↔ MayFollow job.now decls.now before round.now }
{
    let bound = round.saved.bound();
    goes_on(before, round)
        && round.passed <= job.skip
        && same_decls(round.saved.decls(), decls)
        && is_product(bound, round.records - before.records, job.budget)
}

// Whether the numbers of the round go on from there.
fn goes_on(before: Progress, round: &RoundEntry) -> bool
    ensures value { IsTrue result ↔ GoesOn before round.now }
{
    before.shards < round.next_shard
        && before.records < round.records
        && before.bytes < round.next_byte
        && round.next_shard <= round.records
        && round.records <= MOST_RECORDS
        && round.next_byte <= MOST_BYTES
        && before.passed <= round.passed
}

// Whether the number is the product of the others.
fn is_product(number: u64, one: u64, other: u64) -> bool
    ensures value { IsTrue result ↔ (number ≡ one * other) }
{
    match one.checked_mul(other) {
        Some(product) => number == product,
        None => false,
    }
}

// Whether the product of the numbers is at most the greatest bound.
fn is_bound(one: u64, other: u64) -> bool
    ensures value { IsTrue result ↔ (one * other ≤ 2 ^ 63) }
{
    match one.checked_mul(other) {
        Some(product) => product <= MOST_BOUND,
        None => false,
    }
}
