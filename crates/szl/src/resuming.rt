//! A job that is resumed: its rounds are kept in a journal, and it goes on after the last one.
ghost use Rattle.std.specs.Prelude.{◌≡◌, ◌<◌, ◌≤◌, ◌^◌, ◌++◌, ◌∷◌, [], ℕ, List, length, map, string_bytes, None, Some, true, false, IfOk, OnOk, IfSome, IfNone, IsErrOf};
ghost use Rattle.sz_io.specs.Rose.{Rose};
ghost use Rattle.sz_io.specs.Opened.{KeepsFiles};
ghost use Rattle.sz_io.specs.Calls.{ReadToEnd};
ghost use Rattle.sz_core.specs.Sound.{IsSound};
ghost use Rattle.sz_mean.specs.Marked.{marked, all_tables};
ghost use Rattle.sz_save.specs.Saving.{state_of_emits};
ghost use Rattle.sz_disk.specs.Crashes.{are_told};
ghost use Rattle.sz_disk.specs.Crashing.{Rests, LeavesOnly, DoesNotFall};
ghost use Rattle.sz_journal.specs.Journal.{rounds_of, IsOf};
ghost use Rattle.sz_journal.specs.declared.job.JobBytes.{JobBytes};
ghost use Rattle.sz_print.specs.Tables.{lists_text, tables_text};
ghost use Rattle.sz_tabs.specs.Data.{EmitDatum};
ghost use Rattle.sz_types.specs.Tables.{Declaration};
ghost use Rattle.sz_protofile_types.specs.Sound.{AreSound};
ghost use Rattle.sz_resume.specs.Standing.{IsFound};
ghost use Rattle.sz_resume.specs.Runs.{IsJournalOf};
ghost use Rattle.sz_resume.specs.Joining.{HasJournal};
ghost use Rattle.sz_resume.specs.Resumable.{CanResume};
ghost use Rattle.sz_resume.specs.Stops.{SpellsMore};
ghost use Rattle.sz_words.specs.Bounds.{HasBounds};
ghost use Rattle.sz_words.specs.Settings.{settings_in};
ghost use Rattle.sz_words.specs.declared.settings.Settings.TheVariants.{Resume};
ghost use Rattle.sz_refusals.specs.Texts.{most_program_bytes};
ghost use Rattle.szl.specs.Judgement.{Reading, IsRead};
ghost use Rattle.szl.specs.JournalRuns.{AnswersJob, IsAfterRounds, IsProgramOutcome, IsTextOutcome, IsFileOutcome, IfBegun, but_one};
ghost use Rattle.szl.specs.Opening.{Answers, status_of_answer};
ghost use Rattle.szl.specs.ProgramRuns.{CanSave, GivesResumed, IsReadAs, vec_items_of};
ghost use Rattle.szl.specs.Promise.{AreReadToEnd, most_before};
ghost use Rattle.szl.specs.ProtoReads.{HaveTypeBytes};
ghost use Rattle.szl.specs.ResumePromise.{IfJob, IfSpelled, IsJobOutcome, IsNameFor, KeepsDisk, KeepsEntries, KeepsJob, KeepsJournal, job_asked, names_by, names_on_disk};
ghost use Rattle.szl.specs.Resuming.{kept_job, source_of, triple_of};
ghost use Rattle.szl.specs.Saving.{HasSaved, IfSaving};

use crate::answer::{answer_settings, read_program};
use crate::failure::Failure;
use crate::heights::Stack;
use crate::judge::tree_in;
use crate::program_run::job_with_workers;
use crate::proto::{TypesFile, file_named};
use crate::savable::savable;
use crate::setup::Setup;
use std::alloc::Global;
use std::thread::Threads;
use sz_core::Program;
use sz_disk::Disk;
use sz_io::{Files, Gate};
use sz_journal::{JobBytes, Numbers, Triple, Triples, one_standing, open_rounds};
use sz_list::Items;
use sz_merge::saved_runs_join;
use sz_print::text_rows;
use sz_resume::{JobJournal, Joined, ResumedJob, resume_file};
use sz_save::Saved;
use sz_value::{NoMemory, Octets};
use sz_words::{Kill, RunSettings, Settings, read_words};

/// The text that the words ask for, or why there is none. A job that is resumed has its journal on the disk; no other command calls it.
pub fn answer_on_disk<R: Threads + Sync, F: Files, G: Gate + Sync, K: Disk>(
    rt: &R,
    alloc: Global,
    words: &[String],
    files: &mut F,
    gate: &G,
    disk: &mut K,
    setup: Setup,
) -> Result<Vec<u8>, Failure>
    requires { length (F.names files.old) ≤ most_before (settings_in (map string_bytes words.now)) }

    ensures value { IfJob (job_asked setup.has_disk (settings_in (map string_bytes words.now)))
        (λ s. AnswersJob F.Files (λ status outcome. IsJobOutcome F.Files K.Disk s status files.old disk.old outcome) (names_on_disk (Some (Resume s))) (λ n. n)
        files.old files.new (vec_items_of result))
        (Answers F.Files (settings_in (map string_bytes words.now)) files.old files.new (vec_items_of result)) }
    ensures end { OnOk result (AreReadToEnd F.Files files.old files.new
        (names_by (job_asked setup.has_disk (settings_in (map string_bytes words.now))) (settings_in (map string_bytes words.now)))) }
    ensures saved { IfOk result (λ bytes. IfSaving (settings_in (map string_bytes words.now)) (λ s. HasSaved F.Files s files.old bytes.items)) }
    ensures stopped { IfJob (job_asked setup.has_disk (settings_in (map string_bytes words.now)))
        (λ s. KeepsJournal F.Files K.Disk s (status_of_answer (vec_items_of result)) files.old disk.old disk.new) (disk.new ≡ disk.old) }

    ensures disk_failed { IsErrOf result Failure.DiskFailed → Rose (K.faults disk.old) (K.faults disk.new) }

    ensures kept { KeepsFiles F.held F.left F.given F.faults files.old files.new }
    ensures faults { DoesNotFall (K.faults disk.old) (K.faults disk.new) }
{
    let settings = read_words(alloc, words)?;
    match job_asked(&settings, setup.has_disk) {
        Some(job) => answer_resume(rt, alloc, job, files, gate, disk, setup.stack),
        None => answer_settings(rt, alloc, &settings, files, gate, setup.stack),
    }
}

/// The settings of the job that is to be resumed, if one is asked for and there is a disk for its journal.
fn job_asked(settings: &Settings, has_disk: bool) -> Option<&RunSettings>
    ensures some { IfSome result (λ job. (has_disk ≡ true) × (settings.now ≡ Resume job.now)) }
    ensures none { IfNone result (job_asked has_disk (Some settings.now) ≡ None) }
{
    match settings {
        Settings::Resume(job) if has_disk => Some(job),
        _ => None,
    }
}

/// The text of the tables of a program for an input, as these settings ask for it. A `.proto` file that they name is read first.
fn answer_resume<R: Threads + Sync, F: Files, G: Gate + Sync, K: Disk>(
    rt: &R,
    alloc: Global,
    settings: &RunSettings,
    files: &mut F,
    gate: &G,
    disk: &mut K,
    stack: Stack,
) -> Result<Vec<u8>, Failure>
    requires few { length (F.names files.old) < 126 }
    requires bounds { HasBounds settings.now }
    requires no_save { settings.now.save ≡ false }

    ensures value { AnswersJob F.Files (λ status outcome. IsJobOutcome F.Files K.Disk settings.now status files.old disk.old outcome)
        (names_on_disk (Some (Resume settings.now))) (λ n. n) files.old files.new (vec_items_of result) }
    ensures end { OnOk result (AreReadToEnd F.Files files.old files.new (names_on_disk (Some (Resume settings.now)))) }
    ensures stopped { KeepsJournal F.Files K.Disk settings.now (status_of_answer (vec_items_of result)) files.old disk.old disk.new }

    ensures disk_failed { IsErrOf result Failure.DiskFailed → Rose (K.faults disk.old) (K.faults disk.new) }

    ensures kept { KeepsFiles F.held F.left F.given F.faults files.old files.new }
    ensures faults { DoesNotFall (K.faults disk.old) (K.faults disk.new) }
{
    let proto = file_named(alloc, &settings.proto, files, stack)?;
    resume_with(rt, alloc, &proto, settings, files, gate, disk, stack)
}

/// The same where this is the file of types.
fn resume_with<R: Threads + Sync, F: Files, G: Gate + Sync, K: Disk>(
    rt: &R,
    alloc: Global,
    proto: &TypesFile,
    settings: &RunSettings,
    files: &mut F,
    gate: &G,
    disk: &mut K,
    stack: Stack,
) -> Result<Vec<u8>, Failure>
    requires sound { AreSound proto.now.types }
    requires named { HaveTypeBytes proto.now.types }
    requires few { length (F.names files.old) < 127 }
    requires bounds { HasBounds settings.now }
    requires no_save { settings.now.save ≡ false }

    ensures value { AnswersJob F.Files (IsFileOutcome F.Files settings.now proto.now.types proto.now.bytes.items (K.bytes disk.old) files.old)
        (settings.now.program ∷ settings.now.input ∷ []) (λ n. n) files.old files.new (vec_items_of result) }
    ensures end { OnOk result (AreReadToEnd F.Files files.old files.new (settings.now.program ∷ settings.now.input ∷ [])) }
    ensures stopped { (text : List ℕ) (reading : Reading) → F.held files.old settings.now.program ≡ Some text → IsRead text reading
        → KeepsDisk K.Disk settings.now (IfSpelled settings.now proto.now.types reading) (kept_job settings.now text proto.now.bytes.items)
        (F.held files.old settings.now.input) (status_of_answer (vec_items_of result)) disk.old disk.new }
    ensures entries { KeepsEntries K.Disk (IsNameFor settings.now) disk.old disk.new }

    ensures disk_failed { IsErrOf result Failure.DiskFailed → Rose (K.faults disk.old) (K.faults disk.new) }

    ensures kept { KeepsFiles F.held F.left F.given F.faults files.old files.new }
    ensures faults { DoesNotFall (K.faults disk.old) (K.faults disk.new) }
{
    let text = read_program(alloc, settings.program.as_str(), files)?;
    resume_text(rt, alloc, &text, proto, settings, files, gate, disk, stack)
}

/// The same of the program that is spelled by a text. Each round is saved, so that the program's tables have to be such as can be.
fn resume_text<R: Threads + Sync, F: Files, G: Gate + Sync, K: Disk>(
    rt: &R,
    alloc: Global,
    text: &[u8],
    proto: &TypesFile,
    settings: &RunSettings,
    files: &mut F,
    gate: &G,
    disk: &mut K,
    stack: Stack,
) -> Result<Vec<u8>, Failure>
    requires sound { AreSound proto.now.types }
    requires named { HaveTypeBytes proto.now.types }
    requires few { length (F.names files.old) < 128 }
    requires bounds { HasBounds settings.now }
    requires no_save { settings.now.save ≡ false }
    requires short { length text.now ≤ most_program_bytes }

    ensures value { AnswersJob F.Files (IsTextOutcome settings.now proto.now.types text.now (kept_job settings.now text.now proto.now.bytes.items)
        (F.held files.old settings.now.input) (K.bytes disk.old)) (settings.now.input ∷ []) but_one files.old files.new (vec_items_of result) }
    ensures end { OnOk result (ReadToEnd F.Files files.old files.new settings.now.input) }
    ensures names { OnOk result (F.names files.new ≡ F.names files.old ++ settings.now.input ∷ []) }
    ensures stopped { (reading : Reading) → IsRead text.now reading
        → KeepsDisk K.Disk settings.now (IfSpelled settings.now proto.now.types reading) (kept_job settings.now text.now proto.now.bytes.items)
        (F.held files.old settings.now.input) (status_of_answer (vec_items_of result)) disk.old disk.new }
    ensures entries { KeepsEntries K.Disk (IsNameFor settings.now) disk.old disk.new }

    ensures disk_failed { IsErrOf result Failure.DiskFailed → Rose (K.faults disk.old) (K.faults disk.new) }

    ensures kept { KeepsFiles F.held F.left F.given F.faults files.old files.new }
    ensures faults { DoesNotFall (K.faults disk.old) (K.faults disk.new) }
{
    let tree = tree_in(alloc, text, stack)?;
    let program = savable(alloc, &tree, &proto.types, true, settings.ignore_undefs)?;
    let bytes = job_bytes(alloc, settings, text, &proto.bytes)?;
    resume_program(rt, alloc, program, &bytes, settings, files, gate, disk)
}

/// The same of a checked program, whose job has these bytes. The journal is opened after the statics, and before the input.
fn resume_program<R: Threads + Sync, F: Files, G: Gate + Sync, K: Disk>(
    rt: &R,
    alloc: Global,
    program: Program,
    bytes: &JobBytes,
    settings: &RunSettings,
    files: &mut F,
    gate: &G,
    disk: &mut K,
) -> Result<Vec<u8>, Failure>
    requires sound { IsSound program }
    requires can_save { CanSave true (marked program settings.now.ignore_undefs) }
    requires few { length (F.names files.old) < 128 }
    requires bounds { HasBounds settings.now }
    requires no_save { settings.now.save ≡ false }
    requires budget { bytes.now.budget ≡ settings.now.budget }
    requires skip { bytes.now.skip ≡ settings.now.skip }
    requires low { bytes.now.skip < 2 ^ 32 }

    ensures value { AnswersJob F.Files (IsProgramOutcome settings.now (marked program settings.now.ignore_undefs) bytes.now
        (F.held files.old settings.now.input) (K.bytes disk.old)) (settings.now.input ∷ []) but_one files.old files.new (vec_items_of result) }
    ensures end { OnOk result (ReadToEnd F.Files files.old files.new settings.now.input) }
    ensures names { OnOk result (F.names files.new ≡ F.names files.old ++ settings.now.input ∷ []) }
    ensures stopped { KeepsDisk K.Disk settings.now (IfBegun settings.now (marked program settings.now.ignore_undefs)) bytes.now
        (F.held files.old settings.now.input) (status_of_answer (vec_items_of result)) disk.old disk.new }

    ensures disk_failed { IsErrOf result Failure.DiskFailed → Rose (K.faults disk.old) (K.faults disk.new) }

    ensures kept { KeepsFiles F.held F.left F.given F.faults files.old files.new }
    ensures faults { DoesNotFall (K.faults disk.old) (K.faults disk.new) }
{
    one_standing();
    let run = resumed_job(alloc, program, settings)?;
    let decls = run.job.compiled.tables();
    let mut joined = Joined::new(alloc, decls)?;
    let tail = open_rounds(alloc, disk, bytes, decls, &mut joined)?;
    let mut journal = JobJournal { tail, joined };
    text_after(rt, alloc, &run, settings, files, gate, &mut journal, disk)
}

/// The job of a program that is resumed, as its settings ask for it.
fn resumed_job(
    alloc: Global,
    program: Program,
    settings: &RunSettings,
) -> Result<ResumedJob, Failure>
    requires sound { IsSound program }
    requires can_save { CanSave true (marked program settings.now.ignore_undefs) }
    requires bounds { HasBounds settings.now }
    ensures value { GivesResumed (marked program settings.now.ignore_undefs) settings.now result }
{
    let (job, workers) = job_with_workers(alloc, program, settings)?;
    Ok(ResumedJob {
        job,
        workers,
        frame: settings.frame,
        shard: settings.shard,
    })
}

/// The text of the tables of a job that goes on after its journal.
fn text_after<R: Threads + Sync, F: Files, G: Gate + Sync, K: Disk>(
    rt: &R,
    alloc: Global,
    run: &ResumedJob,
    settings: &RunSettings,
    files: &mut F,
    gate: &G,
    journal: &mut JobJournal,
    disk: &mut K,
) -> Result<Vec<u8>, Failure>
    requires few { length (F.names files.old) < 128 }
    requires can_resume { CanResume run.now }
    requires read_as { IsReadAs settings.now run.now }
    requires journal { HasJournal run.now.job journal.old (K.bytes disk.old) }

    ensures value { (name : JobBytes) → IsOf name journal.old.tail
        → AnswersJob F.Files (λ status. IsAfterRounds settings.now run.now.job name (rounds_of journal.old.tail) (F.held files.old settings.now.input)
        (K.bytes disk.old)) (settings.now.input ∷ []) but_one files.old files.new (vec_items_of result) }
    ensures end { OnOk result (ReadToEnd F.Files files.old files.new settings.now.input) }
    ensures names { OnOk result (F.names files.new ≡ F.names files.old ++ settings.now.input ∷ []) }
    ensures stopped { (input held : List ℕ) (name : JobBytes) → F.held files.old settings.now.input ≡ Some input
        → Rests (K.bytes disk.old) (K.may_leave disk.old) held → IsJournalOf name run.now.job journal.old.tail (K.bytes disk.old)
        → IsFound name run.now.job (source_of settings.now input) held (rounds_of journal.old.tail)
        → KeepsJob K.Disk name run.now.job (source_of settings.now input) held (rounds_of journal.old.tail) (status_of_answer (vec_items_of result)) disk.old
        disk.new }
    ensures entries { (name : JobBytes) (held : List ℕ) → Rests (K.bytes disk.old) (K.may_leave disk.old) held → are_told (K.may_leave disk.old) ≡ true
        → IsJournalOf name run.now.job journal.old.tail (K.bytes disk.old)
        → LeavesOnly K.time K.left_since disk.old disk.new (SpellsMore name (all_tables run.now.job.compiled) (rounds_of journal.old.tail)) }

    ensures disk_failed { IsErrOf result Failure.DiskFailed → Rose (K.faults disk.old) (K.faults disk.new) }

    ensures kept { KeepsFiles F.held F.left F.given F.faults files.old files.new }
    ensures faults { DoesNotFall (K.faults disk.old) (K.faults disk.new) }
{
    let file = files.open_file(settings.input.as_str())?;
    let all = resume_file(rt, alloc, run, files, file, gate, journal, disk)?;
    Ok(text_of(alloc, &all)?)
}

/// The text of saved tables.
fn text_of(alloc: Global, all: &Saved) -> Result<Vec<u8>, NoMemory>
    ensures value { (bound : ℕ) (decls : List Declaration) (emits : List EmitDatum) → all.now ≡ state_of_emits bound decls emits
        → IfOk result (λ text. text.items ≡ tables_text decls emits) }
{
    saved_runs_join();
    // a saved state tells that it has as many tables as declarations
    let _ = all.bound();
    text_held(alloc, all)
}

/// The text of these tables, of which there are as many as declarations.
fn text_held(alloc: Global, all: &Saved) -> Result<Vec<u8>, NoMemory>
    requires { length all.now.tables ≡ length all.now.decls }
    ensures value { IfOk result (λ text. text.items ≡ lists_text all.now.decls all.now.tables) }
{
    let text = text_rows(alloc, all.decls(), all.tables())?;
    Ok(text.into_vec())
}

/// What the journal says of the job that the settings ask for, with these texts of the program and of the file of types.
fn job_bytes(
    alloc: Global,
    settings: &RunSettings,
    program: &[u8],
    proto: &[u8],
) -> Result<JobBytes, NoMemory>
    ensures value { IfOk result (λ name. name ≡ kept_job settings.now program.now proto.now) }
    ensures low { IfOk result (λ name. name.skip < 2 ^ 32) }
{
    Ok(JobBytes {
        frame: settings.frame,
        shard: settings.shard,
        attempts: settings.attempts,
        budget: settings.budget,
        ignoring: settings.ignore_undefs,
        skip: skip_of(settings),
        kills: triples_of(alloc, settings.kills.as_slice())?,
        doubled: Numbers::copied(alloc, settings.twice.as_slice())?,
        program: Octets::from_slice(alloc, program)?,
        proto: Octets::from_slice(alloc, proto)?,
    })
}

/// How many records the settings let pass, which fits 4 bytes.
fn skip_of(settings: &RunSettings) -> u32
    ensures value { result ≡ settings.now.skip }
    ensures low { result < 2 ^ 32 }
{
    settings.skip
}

/// The kills as the journal has them.
fn triples_of(alloc: Global, kills: &[Kill]) -> Result<Triples, NoMemory>
    ensures value { IfOk result (λ triples. triples ≡ map triple_of kills.now) }
{
    let mut triples = Items::with_capacity(alloc, kills.len())?;
    for kill in kills {
        triples.push(Triple {
            shard: kill.shard,
            number: kill.number,
            after: kill.after,
        })?;
    }
    Ok(triples)
}
