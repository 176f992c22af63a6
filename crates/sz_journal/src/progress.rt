//! How far a job has come.
ghost use Rattle.std.specs.Prelude.{◌≡◌};
ghost use Rattle.sz_journal.specs.Rounds as progress;

use crate::round::{RoundEntries, RoundEntry};

/// How far a job has come: how much of its input is done, and how many records were passed over.
#[derive(Clone, Copy, Debug, PartialEq, Eq)]
pub struct Progress {
    /// How many shards are done.
    pub shards: u64,
    /// How many records are done.
    pub records: u64,
    /// How many bytes of the input are done: the place where the last of the records ends, with its newline where it has one.
    pub bytes: u64,
    /// How many of the records were passed over.
    pub passed: u32,
}

impl Progress {
    ghost use Rattle.sz_journal.specs.Rounds.{no_progress, progress_of};

    /// Nothing is done.
    pub(crate) fn none() -> Progress
        ensures value { result ≡ no_progress }
    {
        Progress {
            shards: 0,
            records: 0,
            bytes: 0,
            passed: 0,
        }
    }

    /// What is done after a round.
    pub(crate) fn after(round: &RoundEntry) -> Progress
        ensures value { result ≡ progress_of round.now }
    {
        Progress {
            shards: round.next_shard,
            records: round.records,
            bytes: round.next_byte,
            passed: round.passed,
        }
    }
}

/// How far a job has come behind these rounds.
#[tactic(auto, using(crate::proofs::FollowLemmas::last_told, crate::proofs::FollowLemmas::none_done))]
pub fn last_progress(rounds: &RoundEntries) -> Progress
    ensures value { result ≡ progress.last_progress rounds.now }
{
    match rounds.as_slice().last() {
        Some(last) => Progress::after(last),
        None => Progress::none(),
    }
}
