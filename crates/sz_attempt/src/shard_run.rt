//! Attempts, run.
ghost use Rattle.std.specs.Prelude.{◌≡◌, ◌+◌, ◌-◌, ◌<◌, ◌≤◌, ◌^◌, [], ◌∷◌, length, take, All, IfOk, OnOk};
ghost use Rattle.sz_mean.specs.Marked.{all_tables};
ghost use Rattle.sz_tabs.specs.Fitting.{IsEmitTo};
ghost use Rattle.sz_total.specs.Short.{HasShortParts};
ghost use Rattle.sz_attempt.specs.Shards.{shard_at, records_of, IsShardIn, IsJob};
ghost use Rattle.sz_attempt.specs.Yields.{means};
ghost use Rattle.sz_attempt.specs.Attempts.{kills_of, lesser, least_of, end_of};
ghost use Rattle.sz_attempt.specs.Ends.{EndsSo};
ghost use Rattle.sz_attempt.specs.ShardRuns.{IsDeath, least_with, run_of, GainsAll, RunsRecord, RunsRecords, HoldsNothing};

use crate::ends::{AttemptEnd, Faults, Skipped};
use crate::job::{Job, Shard};
use std::alloc::Global;
use sz_list::Items;
use sz_machine::{Room, RunEnd};
use sz_records::Records;
use sz_tabs::Emit;
use sz_total::Total;
use sz_value::NoMemory;
use sz_words::Kill;

/// Attempt `number`, counted from 0, of the shard `shard_no`, counted from 0. It runs the program for the shard's records, one after
/// the other.
///
/// It dies as the kill list says, and what it had is dropped. Records that fault are passed over, with no emits, as many as the job says;
/// one more before the death ends it first.
pub fn attempt<'a>(
    alloc: Global,
    job: &'a Job,
    records: &Records,
    shard: &Shard,
    shard_no: u64,
    number: u32,
) -> Result<AttemptEnd<'a>, NoMemory>
    requires job { IsJob job.now }
    requires number { number < job.now.attempts }
    requires shard { IsShardIn records.now.items shard.now }
    ensures value { IfOk result (λ end. EndsSo job.now.compiled (end_of job.now (shard_at shard_no records.now.items shard.now) number) end) }
{
    let mut room = Room::new(alloc);
    attempt_in(alloc, &mut room, job, records, shard, shard_no, number)
}

/// The same in this room, which the caller keeps for the next attempt.
pub fn attempt_in<'a>(
    alloc: Global,
    room: &mut Room<'a>,
    job: &'a Job,
    records: &Records,
    shard: &Shard,
    shard_no: u64,
    number: u32,
) -> Result<AttemptEnd<'a>, NoMemory>
    requires job { IsJob job.now }
    requires number { number < job.now.attempts }
    requires shard { IsShardIn records.now.items shard.now }
    ensures value { IfOk result (λ end. EndsSo job.now.compiled (end_of job.now (shard_at shard_no records.now.items shard.now) number) end) }
{
    let all = shard.end - shard.start;
    let death = death_of(job.kills.as_slice(), shard_no, number, all);
    let count = run_of(death, all);
    let mut part = Total::new(alloc, job.compiled.tables())?;
    let faults = run_records(alloc, room, job, records, shard, count, &mut part)?;
    if faults.len() > job.skip as usize {
        return Ok(AttemptEnd::Bad(faults));
    }
    match death {
        Some(after) => Ok(AttemptEnd::Died(after)),
        None => Ok(AttemptEnd::Part(part, faults)),
    }
}

/// How many of so many records are run: those before the death, or all.
fn run_of(death: Option<u32>, all: usize) -> usize
    ensures value { result ≡ run_of death all }
{
    match death {
        Some(after) => after as usize,
        None => all,
    }
}

/// After how many records the attempt is to die, if the shard has so many.
fn death_of(kills: &[Kill], shard_no: u64, number: u32, count: usize) -> Option<u32>
    ensures value { IsDeath (kills_of shard_no number kills.now) count result }
{
    match least_kill(kills, shard_no, number) {
        Some(after) if after as usize <= count => Some(after),
        _ => None,
    }
}

/// After how many records the attempt is to die: the least number that the list has for it.
fn least_kill(kills: &[Kill], shard_no: u64, number: u32) -> Option<u32>
    ensures value { result ≡ least_of (kills_of shard_no number kills.now) }
{
    let mut least = None;
    for kill in kills {
        least = least_with(kill, shard_no, number, least);
    }
    least
}

/// The least with one kill more, if it is of the attempt.
fn least_with(kill: &Kill, shard_no: u64, number: u32, least: Option<u32>) -> Option<u32>
    ensures value { result ≡ least_with shard_no number kill.now least }
{
    if u64::from(kill.shard) == shard_no && kill.number == number {
        return Some(lesser(kill.after, least));
    }
    least
}

/// The lesser of a number and one that may be there.
fn lesser(number: u32, other: Option<u32>) -> u32
    ensures value { result ≡ lesser number other }
{
    match other {
        Some(other) => number.min(other),
        None => number,
    }
}

/// Runs the program for the first so many records of the shard, and adds what they emit to the part, which holds nothing yet. The records
/// that fault are passed over; it ends at the first that is one too many.
fn run_records<'a>(
    alloc: Global,
    room: &mut Room<'a>,
    job: &'a Job,
    records: &Records,
    shard: &Shard,
    count: usize,
    part: &mut Total<'a>,
) -> Result<Faults, NoMemory>
    requires job { IsJob job.now }
    requires shard { IsShardIn records.now.items shard.now }
    requires count { count ≤ shard.now.end - shard.now.start }
    requires nothing { HoldsNothing job.now part.old }
    ensures value { IfOk result (λ faults. RunsRecords job.now (means job.now shard.now.first (take count (records_of records.now.items shard.now)))
        part.new faults) }
{
    let mut faults = Items::new(alloc);
    for i in 0..count {
        let input = records.get(shard.start + i);
        run_record(room, job, input, shard.first + i as u64, part, &mut faults)?;
        if faults.len() > job.skip as usize {
            return Ok(faults);
        }
    }
    Ok(faults)
}

/// Runs the program for the record with this number, and adds what it emits to the part; or it is one more of the records that fault.
fn run_record<'a>(
    room: &mut Room<'a>,
    job: &'a Job,
    input: &[u8],
    record_no: u64,
    part: &mut Total<'a>,
    faults: &mut Faults,
) -> Result<(), NoMemory>
    requires job { IsJob job.now }
    requires tables { part.old.tables ≡ all_tables job.now.compiled }
    requires few { part.old.count + 2 ^ 32 ≤ 2 ^ 63 }
    ensures value { OnOk result (RunsRecord job.now record_no input.now part.old part.new faults.old faults.new) }
{
    match room.run(job.compiled.code(), input, &job.statics, job.budget)? {
        RunEnd::Done(emits) => {
            add_all(part, emits.as_slice())?;
            room.take_back(emits);
            Ok(())
        }
        RunEnd::Fault(fault) => {
            faults.push(Skipped { record_no, fault })?;
            Ok(())
        }
    }
}

/// Adds emits to the part, in order.
fn add_all<'a>(part: &mut Total<'a>, emits: &[Emit]) -> Result<(), NoMemory>
    requires fit { All (IsEmitTo part.old.tables) emits.now }
    requires short { All HasShortParts emits.now }
    requires few { part.old.count + length emits.now ≤ 2 ^ 63 }
    ensures value { OnOk result (GainsAll part.old part.new emits.now) }
{
    for emit in emits {
        part.add(emit)?;
    }
    Ok(())
}
