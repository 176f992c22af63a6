//! An input that is run on after the rounds of a journal.
ghost use Rattle.std.specs.Prelude.{◌≡◌, ◌<◌, ◌≤◌, ◌++◌, ℕ, List, drop, length, Some, Option, true, IfSome, IfErr, OnOk, IsSome, IsTrue, IsErrOf};
ghost use Rattle.std.specs.Io.KnownBytes.{IsAtEnd};
ghost use Rattle.sz_io.specs.Rose.{Rose};
ghost use Rattle.sz_io.specs.Opened.{KeepsOtherFiles};
ghost use Rattle.sz_types.specs.Tables.{Declaration};
ghost use Rattle.sz_mean.specs.Marked.{all_tables};
ghost use Rattle.sz_disk.specs.Crashes.{are_told};
ghost use Rattle.sz_disk.specs.Crashing.{Rests, LeavesOnly, DoesNotFall};
ghost use Rattle.sz_journal.specs.Journal.{rounds_of, last_gate, KeepsRounds};
ghost use Rattle.sz_journal.specs.declared.job.JobBytes.{JobBytes};
ghost use Rattle.sz_journal.specs.declared.round.RoundEntry.{RoundEntry};
ghost use Rattle.sz_journal.specs.Rounds.{last_progress};
ghost use Rattle.sz_workers.specs.Outcomes.{outcome_from};
ghost use Rattle.sz_workers.specs.Rounds.{shards_of};
ghost use Rattle.sz_stream.specs.Intakes.{CanGoOn};
ghost use Rattle.sz_stream.specs.InputRuns.{CanRead, Fills, IsReady};
ghost use Rattle.sz_resume.specs.Halts.{of_file};
ghost use Rattle.sz_resume.specs.Standing.{Source, Stands, IsFound};
ghost use Rattle.sz_resume.specs.Entries.{done_of};
ghost use Rattle.sz_resume.specs.Turns.{AllStand, IsAfter, HasNext, AddsRound, StopsHalt, EndsSo};
ghost use Rattle.sz_resume.specs.Stops.{AreSmall, LeavesRounds, SpellsMore, HoldsAll};
ghost use Rattle.sz_resume.specs.Runs.{IsJournalOf, RunsSource, TellsShort};
ghost use Rattle.sz_resume.specs.Joining.{HaveJoined, HasJournal};
ghost use Rattle.sz_resume.specs.Resumable.{CanResume, source_in};

use crate::halt::{Halt, of_disk, of_file};
use crate::job_journal::JobJournal;
use crate::joined::Joined;
use crate::resumed_job::ResumedJob;
use crate::round::{done_after, round_entry};
use crate::skip::skip;
use std::alloc::Global;
use std::thread::Threads;
use sz_disk::Disk;
use sz_io::{Files, Gate, OutsideError};
use sz_journal::Keeper;
use sz_records::Ending;
use sz_save::Saved;
use sz_stream::{Done, Intake, PIECE_BYTES, Stop, fill, run_at_hand};

/// The tables of all that the records of an opened file emit, which are told apart and cut into shards as the resumed job says; or why there are none.
/// Their bound is the number of all records times the job's budget.
///
/// The input is what is left of the file. The bytes of the rounds that the job's journal has are read and dropped. Behind them the file is run as by
/// `run_file`, and each round is appended to the journal before the next one is run. So the journal has all rounds before the one that decides.
///
/// `Short` comes exactly where the input ends in the rounds of the journal, before any call of the disk. `Stopped` has the causes of `run_file`.
/// After `DiskFailed`, and after want of memory, the journal has to be opened again.
pub fn resume_file<R: Threads + Sync, F: Files, G: Gate + Sync, K: Disk>(
    rt: &R,
    alloc: Global,
    run: &ResumedJob,
    files: &mut F,
    file: u32,
    gate: &G,
    journal: &mut JobJournal,
    disk: &mut K,
) -> Result<Saved, Halt>
    requires given { IsTrue (F.given files.old file) }
    requires can_resume { CanResume run.now }
    requires journal { HasJournal run.now.job journal.old (K.bytes disk.old) }

    ensures value { (input held : List ℕ) (name : JobBytes) → F.left files.old file ≡ Some input → K.bytes disk.old ≡ Some held
        → IsFound name run.now.job (source_in run.now input) held (rounds_of journal.old.tail)
        → RunsSource run.now.job journal.old.tail (source_in run.now input) result }
    ensures short { IfSome (F.left files.old file) (λ input. TellsShort journal.old.tail input result) }
    ensures gate { (gate : ℕ) → IsErrOf result (Halt.Short gate) → (gate ≡ last_gate journal.old.tail) × (0 < (last_progress (rounds_of journal.old.tail)).bytes) }
    ensures short_keeps { (gate : ℕ) → IsErrOf result (Halt.Short gate) → (disk.new ≡ disk.old) × (journal.new ≡ journal.old) }
    ensures end { OnOk result (IsAtEnd (F.left files.new file)) }
    ensures told { OnOk result (IfSome (F.left files.old file) (λ _. IsSome (F.left files.new file))) }
    ensures grows { OnOk result ((added : List RoundEntry) × (rounds_of journal.new.tail ≡ rounds_of journal.old.tail ++ added)
        × AreSmall (last_progress (rounds_of journal.old.tail)) added) }

    ensures stopped { (input held : List ℕ) (name : JobBytes) → F.left files.old file ≡ Some input → Rests (K.bytes disk.old) (K.may_leave disk.old) held
        → are_told (K.may_leave disk.old) ≡ true → IsJournalOf name run.now.job journal.old.tail (K.bytes disk.old)
        → IsFound name run.now.job (source_in run.now input) held (rounds_of journal.old.tail)
        → (added : List RoundEntry) × LeavesRounds K.time K.left_since disk.old disk.new name run.now.job (source_in run.now input) held (rounds_of journal.old.tail) added
        × OnOk result (rounds_of journal.new.tail ≡ rounds_of journal.old.tail ++ added) }
    ensures entries { (name : JobBytes) (held : List ℕ) → Rests (K.bytes disk.old) (K.may_leave disk.old) held → are_told (K.may_leave disk.old) ≡ true
        → IsJournalOf name run.now.job journal.old.tail (K.bytes disk.old)
        → LeavesOnly K.time K.left_since disk.old disk.new (SpellsMore name (all_tables run.now.job.compiled) (rounds_of journal.old.tail)) }
    ensures ended { (input held : List ℕ) (name : JobBytes) → F.left files.old file ≡ Some input → Rests (K.bytes disk.old) (K.may_leave disk.old) held
        → IsJournalOf name run.now.job journal.old.tail (K.bytes disk.old)
        → IsFound name run.now.job (source_in run.now input) held (rounds_of journal.old.tail)
        → OnOk result (HoldsAll (K.bytes disk.new) (K.may_leave disk.new) name run.now.job (source_in run.now input) (rounds_of journal.new.tail)) }

    ensures failed { IsErrOf result (Halt.Stopped Stop.ReadFailed) → Rose (F.faults files.old) (F.faults files.new) }
    ensures disk_failed { IsErrOf result Halt.DiskFailed → Rose (K.faults disk.old) (K.faults disk.new) }
    ensures kept { KeepsOtherFiles F.held F.left F.given F.names F.faults file files.old files.new }
    ensures faults { DoesNotFall (K.faults disk.old) (K.faults disk.new) }
{
    let mut buffer = Vec::new(alloc);
    buffer.resize(PIECE_BYTES, 0)?;
    let done = done_after(journal.tail.progress());
    let all = skip(files, file, &mut buffer, done.bytes)?;
    if !all {
        return Err(Halt::Short(journal.tail.last_gate()));
    }
    run_after(
        rt,
        alloc,
        run,
        files,
        file,
        &mut buffer,
        gate,
        journal,
        disk,
        done,
    )
}

/// The same where the bytes of the journal's rounds were read, and this is done of the input: what is left of the file stands after them.
fn run_after<R: Threads + Sync, F: Files, G: Gate + Sync, K: Disk>(
    rt: &R,
    alloc: Global,
    run: &ResumedJob,
    files: &mut F,
    file: u32,
    buffer: &mut [u8],
    gate: &G,
    journal: &mut JobJournal,
    disk: &mut K,
    done: Done,
) -> Result<Saved, Halt>
    requires given { IsTrue (F.given files.old file) }
    requires room { 0 < length buffer.old }
    requires can_resume { CanResume run.now }
    requires journal { HasJournal run.now.job journal.old (K.bytes disk.old) }
    requires done { done ≡ done_of (last_progress (rounds_of journal.old.tail)) }
    requires can { CanGoOn done }
    requires passed { done.passed ≤ run.now.job.skip }

    ensures value { (input : List ℕ) → F.left files.old file ≡ Some (drop (last_progress (rounds_of journal.old.tail)).bytes input)
        → AllStand run.now.job (source_in run.now input) (rounds_of journal.old.tail)
        → RunsSource run.now.job journal.old.tail (source_in run.now input) result }
    ensures long { (gate : ℕ) → IsErrOf result (Halt.Short gate) → ⊥ }
    ensures end { OnOk result (IsAtEnd (F.left files.new file)) }
    ensures told { OnOk result (IfSome (F.left files.old file) (λ _. IsSome (F.left files.new file))) }
    ensures grows { OnOk result ((added : List RoundEntry) × (rounds_of journal.new.tail ≡ rounds_of journal.old.tail ++ added)
        × AreSmall (last_progress (rounds_of journal.old.tail)) added) }

    ensures stopped { (input held : List ℕ) (name : JobBytes) → F.left files.old file ≡ Some (drop (last_progress (rounds_of journal.old.tail)).bytes input)
        → Rests (K.bytes disk.old) (K.may_leave disk.old) held → are_told (K.may_leave disk.old) ≡ true
        → IsJournalOf name run.now.job journal.old.tail (K.bytes disk.old)
        → Stands name run.now.job (source_in run.now input) held (rounds_of journal.old.tail)
        → (added : List RoundEntry) × LeavesRounds K.time K.left_since disk.old disk.new name run.now.job (source_in run.now input) held (rounds_of journal.old.tail) added
        × OnOk result (rounds_of journal.new.tail ≡ rounds_of journal.old.tail ++ added) }
    ensures entries { (name : JobBytes) (held : List ℕ) → Rests (K.bytes disk.old) (K.may_leave disk.old) held → are_told (K.may_leave disk.old) ≡ true
        → IsJournalOf name run.now.job journal.old.tail (K.bytes disk.old)
        → LeavesOnly K.time K.left_since disk.old disk.new (SpellsMore name (all_tables run.now.job.compiled) (rounds_of journal.old.tail)) }
    ensures ended { (input held : List ℕ) (name : JobBytes) → F.left files.old file ≡ Some (drop (last_progress (rounds_of journal.old.tail)).bytes input)
        → Rests (K.bytes disk.old) (K.may_leave disk.old) held → IsJournalOf name run.now.job journal.old.tail (K.bytes disk.old)
        → Stands name run.now.job (source_in run.now input) held (rounds_of journal.old.tail)
        → OnOk result (HoldsAll (K.bytes disk.new) (K.may_leave disk.new) name run.now.job (source_in run.now input) (rounds_of journal.new.tail)) }

    ensures failed { IsErrOf result (Halt.Stopped Stop.ReadFailed) → Rose (F.faults files.old) (F.faults files.new) }
    ensures disk_failed { IsErrOf result Halt.DiskFailed → Rose (K.faults disk.old) (K.faults disk.new) }
    ensures kept { KeepsOtherFiles F.held F.left F.given F.names F.faults file files.old files.new }
    ensures faults { DoesNotFall (K.faults disk.old) (K.faults disk.new) }
{
    let mut intake = Intake::behind(alloc, run.frame, run.shard, done);
    loop {
        fill_round(&mut intake, files, file, buffer)?;
        if let Some(ending) = intake.end() {
            return ended(&mut journal.joined, ending);
        }
        run_next(rt, alloc, run, &mut intake, gate, journal, disk)?;
    }
}

/// Reads pieces of a file until its next round is full, or its ending is known.
fn fill_round<F: Files>(
    intake: &mut Intake,
    files: &mut F,
    file: u32,
    buffer: &mut [u8],
) -> Result<(), Halt>
    requires given { IsTrue (F.given files.old file) }
    requires room { 0 < length buffer.old }
    requires can_read { CanRead intake.old }
    ensures ok { OnOk result (Fills intake.old intake.new (F.left files.old file) (F.left files.new file)) }
    ensures ready { OnOk result (IsReady intake.new) }
    ensures first { OnOk result (intake.new.first ≡ intake.old.first) }
    ensures first_shard { OnOk result (intake.new.round.first_shard ≡ intake.old.round.first_shard) }
    ensures room { length buffer.new ≡ length buffer.old }
    ensures err { IfErr result (λ halt. (error : OutsideError) × (halt ≡ of_file error)) }
    ensures failed { IsErrOf result (Halt.Stopped Stop.ReadFailed) → Rose (F.faults files.old) (F.faults files.new) }
    ensures kept { KeepsOtherFiles F.held F.left F.given F.names F.faults file files.old files.new }
{
    fill(intake, files, file, buffer).map_err(of_file)
}

/// Runs the next round, appends it to the journal, and moves on after it.
fn run_next<R: Threads + Sync, G: Gate + Sync, K: Disk>(
    rt: &R,
    alloc: Global,
    run: &ResumedJob,
    intake: &mut Intake,
    gate: &G,
    journal: &mut JobJournal,
    disk: &mut K,
) -> Result<(), Halt>
    requires can_resume { CanResume run.now }
    requires journal { HasJournal run.now.job journal.old (K.bytes disk.old) }
    requires next { HasNext run.now.job (rounds_of journal.old.tail) intake.old }

    ensures ok { OnOk result (AddsRound run.now.job (rounds_of journal.old.tail) (rounds_of journal.new.tail) intake.old intake.new) }
    ensures journal { OnOk result ((name : JobBytes) → IsJournalOf name run.now.job journal.old.tail (K.bytes disk.old)
        → IsJournalOf name run.now.job journal.new.tail (K.bytes disk.new)) }
    ensures stands { OnOk result ((source : Source) (start left : Option (List ℕ))
        → IsAfter run.now.job source.frame source.most (rounds_of journal.old.tail) intake.old start left
        → start ≡ Some (drop (last_progress (rounds_of journal.old.tail)).bytes source.bytes) → AllStand run.now.job source (rounds_of journal.old.tail)
        → AllStand run.now.job source (rounds_of journal.new.tail)) }
    ensures keeps { OnOk result ((name : JobBytes) (held : List ℕ) → K.bytes disk.old ≡ Some held
        → IsJournalOf name run.now.job journal.old.tail (K.bytes disk.old)
        → KeepsRounds (K.bytes disk.new) (K.may_leave disk.new) name (all_tables run.now.job.compiled) (rounds_of journal.new.tail)) }

    ensures stopped { (name : JobBytes) (source : Source) (held : List ℕ) (start left : Option (List ℕ))
        → IsAfter run.now.job source.frame source.most (rounds_of journal.old.tail) intake.old start left
        → start ≡ Some (drop (last_progress (rounds_of journal.old.tail)).bytes source.bytes)
        → Stands name run.now.job source held (rounds_of journal.old.tail) → Rests (K.bytes disk.old) (K.may_leave disk.old) held
        → are_told (K.may_leave disk.old) ≡ true → IsJournalOf name run.now.job journal.old.tail (K.bytes disk.old)
        → (added : List RoundEntry) × LeavesRounds K.time K.left_since disk.old disk.new name run.now.job source held (rounds_of journal.old.tail) added
        × OnOk result (rounds_of journal.new.tail ≡ rounds_of journal.old.tail ++ added) }
    ensures entries { (name : JobBytes) (held : List ℕ) → Rests (K.bytes disk.old) (K.may_leave disk.old) held → are_told (K.may_leave disk.old) ≡ true
        → IsJournalOf name run.now.job journal.old.tail (K.bytes disk.old)
        → LeavesOnly K.time K.left_since disk.old disk.new (SpellsMore name (all_tables run.now.job.compiled) (rounds_of journal.old.tail)) }
    ensures joined { OnOk result (HaveJoined journal.new.joined (all_tables run.now.job.compiled) (rounds_of journal.new.tail)) }
    ensures told { are_told (K.may_leave disk.new) ≡ are_told (K.may_leave disk.old) }

    ensures err { IfErr result (StopsHalt (outcome_from run.now.job intake.old.round.passed (shards_of intake.old.round))) }
    ensures read { IsErrOf result (Halt.Stopped Stop.ReadFailed) → ⊥ }
    ensures disk_failed { IsErrOf result Halt.DiskFailed → Rose (K.faults disk.old) (K.faults disk.new) }
    ensures faults { DoesNotFall (K.faults disk.old) (K.faults disk.new) }
{
    let (tables, passed) = run_at_hand(rt, alloc, &run.job, run.workers, intake, gate)?;
    let round = round_entry(alloc, &run.job, intake, &tables, passed)?;
    match journal.tail.append(disk, &round) {
        Ok(()) => {
            journal.joined.keep(round)?;
            intake.move_on(passed);
            Ok(())
        }
        Err(error) => Err(of_disk(error)),
    }
}

/// The tables of rounds that were joined, where the input ends so after them.
fn ended(joined: &mut Joined, ending: Ending) -> Result<Saved, Halt>
    requires some { (decls : List Declaration) × (rounds : List RoundEntry) × HaveJoined joined.old decls rounds }
    ensures value { (decls : List Declaration) (rounds : List RoundEntry) → HaveJoined joined.old decls rounds → EndsSo decls rounds ending result }
{
    match ending {
        Ending::Whole => Ok(joined.tables()?),
        Ending::Damaged(byte) => Err(Halt::Stopped(Stop::Damaged(byte))),
        Ending::Limit(byte) => Err(Halt::Stopped(Stop::Limit(byte))),
    }
}
