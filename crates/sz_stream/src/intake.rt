//! The records at hand of an input, and the round that is made of them.
ghost use Rattle.std.specs.Prelude.{◌≡◌, ◌+◌, ◌-◌, ◌<◌, ◌≤◌, ◌^◌, true, false, None, length, IfOk, OnOk};
ghost use Rattle.sz_stream.specs.Intakes.{CanGoOn, IsEmpty, TakesIn, KeepsRound, Closes, IsAnswered, AreTooMany, moved_on, done_with, end_of};
ghost use Rattle.sz_stream.specs.InputRuns.{EndsAt, MovesOn};

use crate::done::Done;
use std::alloc::Global;
use sz_attempt::Shard;
use sz_list::Items;
use sz_records::{Ending, FrameLimits, Framer, Records, shard_end};
use sz_types::Frame;
use sz_value::NoMemory;
use sz_workers::Round;

/// The most shards of a round.
const MOST_SHARDS: usize = 4096;

/// A round of more than one shard has no more records than so many.
const MOST_RECORDS: usize = 1 << 20;

/// The records of a round of more than one shard have no more bytes than so many, without lengths and newlines.
const MOST_BYTES: usize = 1 << 26;

/// The records at hand of an input that comes in pieces, and the round that is made of them.
pub struct Intake {
    /// Cuts the pieces into records.
    pub(crate) framer: Framer,
    /// How the records end, where that is known. Then no more of them come.
    pub(crate) ending: Option<Ending>,
    /// The next round. Its records are all that are at hand, and its shards are those that are closed: no more records belong to them.
    pub(crate) round: Round,
    /// The number of the first record at hand in the input, counted from 1.
    pub(crate) first: u64,
    /// How many records at hand belong to closed shards.
    pub(crate) closed: usize,
    /// The most records of a shard.
    pub(crate) most: u32,
}

impl Drop for Intake {
    fn drop(self) {
        let Intake {
            framer: _,
            ending: _,
            round: _,
            first: _,
            closed: _,
            most: _,
        } = self;
    }
}

impl Intake {
    /// An intake in an input whose front is done: the first piece begins with byte `done.bytes` of the input, counted from 0. A shard has `most`
    /// records at most, which is 1 or more for the other calls. It takes no memory.
    pub fn behind(alloc: Global, frame: Frame, most: u32, done: Done) -> Intake
        requires done { CanGoOn done }
        ensures empty { IsEmpty frame most done result }
    {
        Intake {
            framer: Framer::behind(alloc, frame, FrameLimits::FULL, done.bytes, done.records),
            ending: None,
            round: Round {
                records: Records::new(alloc),
                shards: Items::new(alloc),
                first_shard: done.shards,
                passed: done.passed,
            },
            first: done.records + 1,
            closed: 0,
            most,
        }
    }

    /// Takes in the next piece of the input. An empty one is its end.
    pub(crate) fn take(&mut self, piece: &[u8]) -> Result<(), NoMemory>
        requires more { self.old.ending ≡ None }
        ensures taken { OnOk result (TakesIn self.old self.new piece.now) }
        ensures kept { KeepsRound self.old self.new }
    {
        if piece.is_empty() {
            let ending = self.framer.finish(&mut self.round.records)?;
            self.ending = Some(ending);
            return Ok(());
        }
        self.ending = self.framer.feed(piece, &mut self.round.records)?;
        Ok(())
    }

    /// Closes the next shards for as long as the round has room for them. The answer is whether a piece is wanted: exactly where the ending isn't
    /// known, and the round has room for the next shard as far as that is at hand.
    pub(crate) fn wants_piece(&mut self) -> Result<bool, NoMemory>
        requires most { 1 ≤ self.old.most }
        requires within { self.old.closed ≤ length self.old.round.records.items }
        requires few { self.old.first + length self.old.round.records.items ≤ 2 ^ 31 + 1 }
        ensures closed { OnOk result (Closes self.old self.new) }
        ensures answer { IfOk result (λ wants. IsAnswered self.new wants) }
    {
        while self.round.shards.len() < MOST_SHARDS {
            let start = self.closed;
            let at_end = self.ending.is_some();
            let found = shard_end(&self.round.records, start, self.most, at_end);
            let all = self.round.records.len();
            let end = found.unwrap_or(all);
            if has_no_room(&self.round, end) {
                return Ok(false);
            }
            if found.is_none() {
                return Ok(!at_end);
            }
            self.round.shards.push(Shard {
                first: self.first + start as u64,
                start,
                end,
            })?;
            self.closed = end;
        }
        Ok(false)
    }

    /// The ending, where it is known and the round at hand has no shard. After `fill` no record is left then. The byte of `Damaged` and `Limit`
    /// is counted from the first one of the whole input, which is 0.
    pub fn end(&self) -> Option<Ending>
        ensures value { result ≡ end_of self.now }
    {
        if self.round.shards.is_empty() {
            self.ending
        } else {
            None
        }
    }

    /// The round at hand. Its shards are numbered on from those of the rounds before it; it may have records behind its last shard.
    pub fn round(&self) -> &Round
        ensures value { result.now ≡ self.now.round }
    {
        &self.round
    }

    /// What is done of the whole input once the round at hand is, of whose own records `passed` were passed over.
    pub fn done_with(&self, passed: u32) -> Done
        requires begun { 1 ≤ self.now.first }
        requires some { 0 < self.now.closed }
        requires within { self.now.closed ≤ length self.now.round.records.items }
        requires few { self.now.first + length self.now.round.records.items ≤ 2 ^ 31 + 1 }
        requires numbers { self.now.round.first_shard + length self.now.round.shards ≤ 2 ^ 31 + 1 }
        requires passed { self.now.round.passed + passed < 2 ^ 32 }
        ensures value { result ≡ done_with passed self.now }
        ensures place { EndsAt self.now result }
    {
        Done {
            shards: self.round.first_shard + self.round.shards.len() as u64,
            records: self.records_run() + self.closed as u64,
            bytes: self.round.records.end(self.closed - 1),
            passed: self.round.passed + passed,
        }
    }

    /// How many records the whole input has before those at hand.
    pub fn records_run(&self) -> u64
        requires begun { 1 ≤ self.now.first }
        ensures value { result ≡ self.now.first - 1 }
    {
        self.first - 1
    }

    /// Drops the shards of the round, which were run, and their records, of which `passed` were passed over. The next round begins with the record
    /// behind them.
    pub fn move_on(&mut self, passed: u32)
        requires within { self.old.closed ≤ length self.old.round.records.items }
        requires few { self.old.first + length self.old.round.records.items ≤ 2 ^ 31 + 1 }
        requires numbers { self.old.round.first_shard + length self.old.round.shards ≤ 2 ^ 31 + 1 }
        requires passed { self.old.round.passed + passed < 2 ^ 32 }
        ensures value { self.new ≡ moved_on passed self.old }
        ensures goes_on { MovesOn passed self.old self.new }
    {
        self.round.records.clear(self.closed);
        self.round.first_shard += self.round.shards.len() as u64;
        self.round.shards.truncate(0);
        self.round.passed += passed;
        self.first += self.closed as u64;
        self.closed = 0;
    }
}

/// Whether a round has a shard, and no room for a further one that would bring it to so many records.
fn has_no_room(round: &Round, count: usize) -> bool
    requires within { count ≤ length round.now.records.items }
    ensures full { (result ≡ true) → (0 < length round.now.shards) × AreTooMany round.now.records.items count }
    ensures fits { (result ≡ false) → 0 < length round.now.shards → ¬ AreTooMany round.now.records.items count }
{
    !round.shards.is_empty() && are_too_many(&round.records, count)
}

/// Whether so many records at the front, or their bytes, are more than a round of more than one shard may have.
fn are_too_many(records: &Records, count: usize) -> bool
    requires within { count ≤ length records.now.items }
    ensures large { (result ≡ true) → AreTooMany records.now.items count }
    ensures fits { (result ≡ false) → ¬ AreTooMany records.now.items count }
{
    count > MOST_RECORDS || records.bytes_between(0, count) > MOST_BYTES
}
