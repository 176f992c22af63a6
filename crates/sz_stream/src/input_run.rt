//! An input, run.
ghost use Rattle.std.specs.Prelude.{◌≡◌, ◌⊎◌, ◌+◌, ◌<◌, ◌≤◌, ◌^◌, None, length, IsTrue, IfOk, IfErr, OnOk, IsErrOf};
ghost use Rattle.std.specs.Io.KnownBytes.{IsAtEnd};
ghost use Rattle.sz_io.specs.Rose.{Rose};
ghost use Rattle.sz_io.specs.Opened.{KeepsOtherFiles};
ghost use Rattle.sz_total.specs.States.{declarations, emit_count, shown};
ghost use Rattle.sz_total.specs.Totals.{Joins};
ghost use Rattle.sz_attempt.specs.Shards.{IsJob};
ghost use Rattle.sz_stream.specs.Inputs.{RunsInput, RunsFile};
ghost use Rattle.sz_stream.specs.Intakes.{FitsRound, IsFilled};
ghost use Rattle.sz_stream.specs.InputRuns.{CanRead, CanRun, Fills, ReadsPiece, ReadsNoMore, TakesAll, IsReady, RunsRound, StopsShards, ended_so};
ghost use Rattle.sz_workers.specs.Rounds.{IsRound, EndsRound, shards_of};
ghost use Rattle.sz_workers.specs.Outcomes.{outcome_from};
ghost use Rattle.sz_workers.specs.declared.round.RoundEnd.TheVariants as ends;

use crate::done::Done;
use crate::intake::Intake;
use crate::stop::Stop;
use crate::tables::InputTables;
use std::alloc::Global;
use std::thread::Threads;
use sz_attempt::Job;
use sz_io::{Failed, Files, Gate, OutsideError};
use sz_records::Ending;
use sz_total::Total;
use sz_value::NoMemory;
use sz_words::RunSettings;
use sz_workers::{RoundEnd, run_round};

/// How many bytes of a file are read at most by one call of `read`: the length of a buffer for `fill`.
pub const PIECE_BYTES: usize = 65_536;

/// The tables of all that the records of an opened file emit, by the frame and shards of these settings, and the number of the records; or
/// why there are none.
///
/// The file is read in pieces. A piece is read only where the ending isn't known and the records at hand don't fill a round. A round that
/// is full is run, and its records are dropped. The first that has a shard which is lost, or a record too many that faults, ends the run, and
/// no more is read.
///
/// Each round is run by so many workers. The gate is called before each attempt; tickets are counted from 0 in each round, and shards from 0
/// in the whole input.
///
/// The input is what is left of the file, its first byte being byte 0. But for want of memory and a failed read, `Fault` and `Lost` come exactly
/// where a shard decides, by the first that does; `Damaged` and `Limit` where none does and the records end so. `ReadFailed` comes only where the
/// count of faults rose.
pub fn run_file<'a, R: Threads + Sync, F: Files, G: Gate + Sync>(
    rt: &R,
    alloc: Global,
    job: &'a Job,
    settings: &RunSettings,
    workers: u32,
    files: &mut F,
    file: u32,
    gate: &G,
) -> Result<InputTables<'a>, Stop>
    requires given { IsTrue (F.given files.old file) }
    requires job { IsJob job.now }
    requires attempts { (1 ≤ job.now.attempts) × (job.now.attempts ≤ 8) }
    requires workers { (1 ≤ workers) × (workers ≤ 64) }
    requires shard { 1 ≤ settings.now.shard }
    ensures value { RunsFile job.now settings.now.shard settings.now.frame (F.left files.old file) (F.left files.new file) result }
    ensures end { OnOk result (IsAtEnd (F.left files.new file)) }
    ensures failed { IsErrOf result Stop.ReadFailed → Rose (F.faults files.old) (F.faults files.new) }
    ensures kept { KeepsOtherFiles F.held F.left F.given F.names F.faults file files.old files.new }
{
    let mut buffer = Vec::new(alloc);
    buffer.resize(PIECE_BYTES, 0)?;
    let mut intake = Intake::behind(alloc, settings.frame, settings.shard, Done::NOTHING);
    let mut total = Total::new(alloc, job.compiled.tables())?;
    loop {
        fill(&mut intake, files, file, &mut buffer)?;
        if let Some(ending) = intake.end() {
            return ended(total, intake.records_run(), ending);
        }
        run_next(rt, alloc, job, workers, &mut intake, &mut total, gate)?;
    }
}

/// The same for an input that is in memory as a whole, so that `ReadFailed` doesn't come.
pub fn run_bytes<'a, R: Threads + Sync, G: Gate + Sync>(
    rt: &R,
    alloc: Global,
    job: &'a Job,
    settings: &RunSettings,
    workers: u32,
    bytes: &[u8],
    gate: &G,
) -> Result<InputTables<'a>, Stop>
    requires job { IsJob job.now }
    requires attempts { (1 ≤ job.now.attempts) × (job.now.attempts ≤ 8) }
    requires workers { (1 ≤ workers) × (workers ≤ 64) }
    requires shard { 1 ≤ settings.now.shard }
    ensures value { RunsInput job.now settings.now.shard settings.now.frame bytes.now result }
    ensures read { IsErrOf result Stop.ReadFailed → ⊥ }
{
    let mut intake = Intake::behind(alloc, settings.frame, settings.shard, Done::NOTHING);
    let mut total = Total::new(alloc, job.compiled.tables())?;
    take_all(&mut intake, bytes)?;
    loop {
        let _ = intake.wants_piece()?;
        if let Some(ending) = intake.end() {
            return ended(total, intake.records_run(), ending);
        }
        run_next(rt, alloc, job, workers, &mut intake, &mut total, gate)?;
    }
}

/// Takes in an input as one piece, and then its end.
fn take_all(intake: &mut Intake, bytes: &[u8]) -> Result<(), NoMemory>
    requires more { intake.old.ending ≡ None }
    ensures ok { OnOk result (TakesAll intake.old intake.new bytes.now) }
{
    intake.take(bytes)?;
    if intake.ending.is_some() {
        return Ok(());
    }
    intake.take(&[])
}

/// Reads pieces of a file until its next round is full, or its ending is known. Where either is so already, nothing is read.
///
/// A round is full with 4,096 shards. It is full before that where it has a shard, and the next one, as far as it is at hand, would bring it past
/// 2^20 records or past 2^26 bytes; a record's length or newline doesn't count. So a single shard may be larger than that. A piece has no more
/// bytes than the buffer. Records of it that are behind the round stay at hand for the next one.
///
/// `Failed` comes only where the count of faults rose. After an error the intake may lack a piece that was read, and is of no more use.
pub fn fill<F: Files>(
    intake: &mut Intake,
    files: &mut F,
    file: u32,
    buffer: &mut [u8],
) -> Result<(), OutsideError>
    requires given { IsTrue (F.given files.old file) }
    requires room { 0 < length buffer.old }
    requires can_read { CanRead intake.old }
    ensures ok { OnOk result (Fills intake.old intake.new (F.left files.old file) (F.left files.new file)) }
    ensures full { OnOk result (IsFilled intake.new) }
    ensures fits { OnOk result (FitsRound intake.new) }
    ensures ready { OnOk result (IsReady intake.new) }
    ensures wanted { OnOk result ((files.new ≡ files.old)
        ⊎ ReadsNoMore (length buffer.old) intake.old intake.new (F.left files.old file) (F.left files.new file)) }
    ensures first { OnOk result (intake.new.first ≡ intake.old.first) }
    ensures first_shard { OnOk result (intake.new.round.first_shard ≡ intake.old.round.first_shard) }
    ensures failed { IsErrOf result OutsideError.Failed → Rose (F.faults files.old) (F.faults files.new) }
    ensures kept { KeepsOtherFiles F.held F.left F.given F.names F.faults file files.old files.new }
{
    while intake.wants_piece()? {
        read_piece(intake, files, file, buffer)?;
    }
    Ok(())
}

/// Reads the next piece of a file.
fn read_piece<F: Files>(
    intake: &mut Intake,
    files: &mut F,
    file: u32,
    buffer: &mut [u8],
) -> Result<(), OutsideError>
    requires given { IsTrue (F.given files.old file) }
    requires room { 0 < length buffer.old }
    requires can_read { CanRead intake.old }
    requires more { intake.old.ending ≡ None }
    ensures ok { OnOk result (ReadsPiece (length buffer.old) intake.old intake.new (F.left files.old file) (F.left files.new file)) }
    ensures first { intake.new.first ≡ intake.old.first }
    ensures first_shard { intake.new.round.first_shard ≡ intake.old.round.first_shard }
    ensures failed { IsErrOf result OutsideError.Failed → Rose (F.faults files.old) (F.faults files.new) }
    ensures kept { KeepsOtherFiles F.held F.left F.given F.names F.faults file files.old files.new }
{
    match files.read(file, buffer) {
        Ok(count) => Ok(intake.take(&buffer[..count])?),
        Err(Failed) => Err(OutsideError::Failed),
    }
}

/// Runs the next round by so many workers, merges its tables into the total, and moves on after it.
fn run_next<'a, R: Threads + Sync, G: Gate + Sync>(
    rt: &R,
    alloc: Global,
    job: &'a Job,
    workers: u32,
    intake: &mut Intake,
    total: &mut Total<'a>,
    gate: &G,
) -> Result<(), Stop>
    requires job { IsJob job.now }
    requires attempts { (1 ≤ job.now.attempts) × (job.now.attempts ≤ 8) }
    requires workers { (1 ≤ workers) × (workers ≤ 64) }
    requires can_run { CanRun job.now intake.old total.old }
    ensures ok { OnOk result (RunsRound job.now intake.old intake.new total.old total.new) }
    ensures err { IfErr result (λ stop. StopsShards (outcome_from job.now intake.old.round.passed (shards_of intake.old.round)) stop) }
    ensures read { IsErrOf result Stop.ReadFailed → ⊥ }
{
    let (part, passed) = run_at_hand(rt, alloc, job, workers, intake, gate)?;
    merge(rt, workers, total, part)?;
    intake.move_on(passed);
    Ok(())
}

/// Runs the round at hand by so many workers: its tables alone, and how many of its own records were passed over, those of earlier rounds not
/// counted. The intake stays as it is: `move_on` drops the round.
///
/// `Err` is `Fault` or `Lost`, exactly where a shard of the round decides, by the first that does; or `NoMemory`. Records passed over before the
/// round count for whether a shard decides.
pub fn run_at_hand<'a, R: Threads + Sync, G: Gate + Sync>(
    rt: &R,
    alloc: Global,
    job: &'a Job,
    workers: u32,
    intake: &Intake,
    gate: &G,
) -> Result<(Total<'a>, u32), Stop>
    requires job { IsJob job.now }
    requires attempts { (1 ≤ job.now.attempts) × (job.now.attempts ≤ 8) }
    requires workers { (1 ≤ workers) × (workers ≤ 64) }
    requires round { IsRound intake.now.round }
    requires passed { intake.now.round.passed ≤ job.now.skip }
    ensures value { IfOk result (λ given. EndsRound job.now.compiled
        (outcome_from job.now intake.now.round.passed (shards_of intake.now.round)) (ends.Tables given.0 given.1)) }
    ensures fits { IfOk result (λ given. intake.now.round.passed + given.1 < 2 ^ 32) }
    ensures err { IfErr result (λ stop. StopsShards
        (outcome_from job.now intake.now.round.passed (shards_of intake.now.round)) stop) }
    ensures read { IsErrOf result Stop.ReadFailed → ⊥ }
{
    // the type of this number bounds how many are passed over
    let _skip = job.skip;
    match run_round(rt, alloc, job, &intake.round, workers, gate)? {
        RoundEnd::Tables(part, passed) => Ok((part, passed)),
        RoundEnd::Fault { record_no, fault } => Err(Stop::Fault { record_no, fault }),
        RoundEnd::Lost(shard) => Err(Stop::Lost(shard)),
    }
}

/// Merges the tables of one round more, in at most so many threads.
fn merge<'a, R: Threads + Sync>(
    rt: &R,
    threads: u32,
    total: &mut Total<'a>,
    part: Total<'a>,
) -> Result<(), NoMemory>
    requires threads { 1 ≤ threads }
    requires same { part.tables ≡ total.old.tables }
    requires room { total.old.count + part.count ≤ 2 ^ 63 }
    ensures ok { OnOk result (Joins declarations emit_count shown total.old part.entry total.new) }
{
    total
        .absorb_by(rt, threads as usize, part)
        .map_err(|_| NoMemory)
}

/// The tables of an input that ends so, after its last round and so many records.
fn ended<'a>(total: Total<'a>, records: u64, ending: Ending) -> Result<InputTables<'a>, Stop>
    ensures value { result ≡ ended_so total.entry records ending }
{
    match ending {
        Ending::Whole => Ok(InputTables { total, records }),
        Ending::Damaged(byte) => Err(Stop::Damaged(byte)),
        Ending::Limit(byte) => Err(Stop::Limit(byte)),
    }
}
