//! What a command line is answered, before anything is written.
ghost use Rattle.std.specs.Prelude.{◌≡◌, ◌<◌, ◌≤◌, ◌++◌, ◌∷◌, [], ℕ, List, length, Option, Some, true, IfOk, OnOk};
ghost use Rattle.sz_io.specs.Rose.{Rose};
ghost use Rattle.sz_io.specs.Opened.{KeepsFiles};
ghost use Rattle.sz_io.specs.Calls.{NamesGain, OpensOne, ReadToEnd};
ghost use Rattle.sz_core.specs.Sound.{IsSound};
ghost use Rattle.sz_mean.specs.Marked.{marked};
ghost use Rattle.sz_words.specs.declared.settings.Settings.TheVariants.{Run, Check};
ghost use Rattle.sz_protofile_types.specs.Sound.{AreSound};
ghost use Rattle.szl.specs.Opening.{ReadsText, ran_out, past_program, status_of_answer, Answers, AnswersWith, AnswersOn, AnswersText, AnswersCheck};
ghost use Rattle.szl.specs.Outcome.{outcome_of_program};
ghost use Rattle.szl.specs.SavedRuns.{SavesTables, SavedRun};
ghost use Rattle.szl.specs.Saving.{OfHeld, SavesWith, HasSaved, IfSaving};
ghost use Rattle.sz_refusals.specs.Texts.{most_program_bytes};
ghost use Rattle.szl.specs.Promise.{AreReadToEnd, IfRead, names_asked, most_before};
ghost use Rattle.szl.specs.ProgramRuns.{CanSave, vec_items_of};
ghost use Rattle.szl.specs.ProtoReads.{HaveTypeBytes};
ghost use Rattle.sz_words.specs.Bounds.{HasBounds, IsBounded};

use crate::failure::{Failure, refused};
use crate::heights::Stack;
use crate::judge::{checked, tree_in};
use crate::merging::answer_merge;
use crate::opening::read_text;
use crate::program_run::{job_with_workers, tables_of_file};
use crate::proto::types_named;
use crate::savable::savable;
use crate::selftest::answer_selftest;
use std::alloc::Global;
use std::thread::Threads;
use sz_check_rules::Cause;
use sz_core::Program;
use sz_io::{Files, Gate};
use sz_protofile_types::NamedTypes;
use sz_refusals::{FIRST_PLACE, MOST_PROGRAM_BYTES};
use sz_types::Text;
use sz_words::{RunSettings, Settings};

/// The text that the settings ask for, or why there is none. A job that is resumed needs a disk: without one this is no command line.
pub fn answer_settings<R: Threads + Sync, F: Files, G: Gate + Sync>(
    rt: &R,
    alloc: Global,
    settings: &Settings,
    files: &mut F,
    gate: &G,
    stack: Stack,
) -> Result<Vec<u8>, Failure>
    requires few { length (F.names files.old) ≤ most_before (Some settings.now) }
    requires bounds { IsBounded settings.now }
    ensures value { Answers F.Files (Some settings.now) files.old files.new (vec_items_of result) }
    ensures end { OnOk result (AreReadToEnd F.Files files.old files.new (names_asked (Some settings.now))) }
    ensures saved { IfOk result (λ bytes. IfSaving (Some settings.now) (λ s. HasSaved F.Files s files.old bytes.items)) }
    ensures kept { KeepsFiles F.held F.left F.given F.faults files.old files.new }
{
    match settings {
        Settings::Run(run) => answer_run(rt, alloc, run, files, gate, stack),
        Settings::Resume(_) => Err(Failure::Usage),
        Settings::Check { program, proto } => answer_check(
            alloc,
            program.as_str(),
            proto,
            files,
            stack,
        ),
        Settings::Merge { files: names, save } => answer_merge(
            alloc,
            names.as_slice(),
            *save,
            files,
        ),
        Settings::Selftest {
            seed,
            records,
            workers,
        } => answer_selftest(rt, alloc, *seed, *records, *workers, gate),
    }
}

/// The text of the program under a name.
pub fn read_program<F: Files>(alloc: Global, name: &str, files: &mut F) -> Result<Vec<u8>, Failure>
    requires few { length (F.names files.old) < 128 }
    ensures text { ReadsText (F.held files.old name.now) most_program_bytes past_program
        (Rose (F.faults files.old) (F.faults files.new)) (vec_items_of result) }
    ensures names { NamesGain (ran_out (vec_items_of result)) (F.names files.old) (F.names files.new) name.now }
    ensures opened { IfRead (status_of_answer (vec_items_of result)) (OpensOne F.Files files.old files.new) }
    ensures end { OnOk result (ReadToEnd F.Files files.old files.new name.now) }
    ensures kept { KeepsFiles F.held F.left F.given F.faults files.old files.new }
{
    read_text(
        alloc,
        files,
        name,
        MOST_PROGRAM_BYTES,
        refused(Cause::TooLong, FIRST_PLACE),
    )
}

/// The text of the tables of a program for an input, as these settings ask for it. A `.proto` file that they name is read first.
fn answer_run<R: Threads + Sync, F: Files, G: Gate + Sync>(
    rt: &R,
    alloc: Global,
    settings: &RunSettings,
    files: &mut F,
    gate: &G,
    stack: Stack,
) -> Result<Vec<u8>, Failure>
    requires few { length (F.names files.old) < 126 }
    requires bounds { HasBounds settings.now }
    ensures value { Answers F.Files (Some (Run settings.now)) files.old files.new (vec_items_of result) }
    ensures end { OnOk result (AreReadToEnd F.Files files.old files.new (names_asked (Some (Run settings.now)))) }
    ensures saved { IfOk result (λ bytes. settings.now.save ≡ true → HasSaved F.Files settings.now files.old bytes.items) }
    ensures kept { KeepsFiles F.held F.left F.given F.faults files.old files.new }
{
    let types = types_named(alloc, &settings.proto, files, stack)?;
    run_with(rt, alloc, &types, settings, files, gate, stack)
}

/// The same where these types are known.
fn run_with<R: Threads + Sync, F: Files, G: Gate + Sync>(
    rt: &R,
    alloc: Global,
    types: &NamedTypes,
    settings: &RunSettings,
    files: &mut F,
    gate: &G,
    stack: Stack,
) -> Result<Vec<u8>, Failure>
    requires sound { AreSound types.now }
    requires named { HaveTypeBytes types.now }
    requires few { length (F.names files.old) < 127 }
    requires bounds { HasBounds settings.now }
    ensures value { AnswersWith F.Files types.now (Some (Run settings.now)) files.old files.new (vec_items_of result) }
    ensures end { OnOk result (AreReadToEnd F.Files files.old files.new (settings.now.program ∷ settings.now.input ∷ [])) }
    ensures saved { IfOk result (λ bytes. settings.now.save ≡ true → SavesWith F.Files types.now settings.now files.old bytes.items) }
    ensures kept { KeepsFiles F.held F.left F.given F.faults files.old files.new }
{
    let text = read_program(alloc, settings.program.as_str(), files)?;
    answer_text(rt, alloc, &text, types, settings, files, gate, stack)
}

/// No text, if the program under a name passes its check. The `.proto` file under a name, if there is one, is read first.
fn answer_check<F: Files>(
    alloc: Global,
    program: &str,
    proto: &Option<Text>,
    files: &mut F,
    stack: Stack,
) -> Result<Vec<u8>, Failure>
    requires { length (F.names files.old) < 126 }
    ensures value { Answers F.Files (Some (Check program.now proto.now)) files.old files.new (vec_items_of result) }
    ensures end { OnOk result (AreReadToEnd F.Files files.old files.new (names_asked (Some (Check program.now proto.now)))) }
    ensures kept { KeepsFiles F.held F.left F.given F.faults files.old files.new }
{
    let types = types_named(alloc, proto, files, stack)?;
    check_named(alloc, program, &types, files, stack)
}

/// The same where these types are known.
fn check_named<F: Files>(
    alloc: Global,
    program: &str,
    types: &NamedTypes,
    files: &mut F,
    stack: Stack,
) -> Result<Vec<u8>, Failure>
    requires sound { AreSound types.now }
    requires few { length (F.names files.old) < 127 }
    ensures value { (proto : Option (List ℕ)) → AnswersWith F.Files types.now (Some (Check program.now proto)) files.old files.new (vec_items_of result) }
    ensures end { OnOk result (AreReadToEnd F.Files files.old files.new (program.now ∷ [])) }
    ensures kept { KeepsFiles F.held F.left F.given F.faults files.old files.new }
{
    let text = read_program(alloc, program, files)?;
    check_text(alloc, &text, types, stack)
}

/// No text, if the program that is spelled by a text passes its check where these types are known.
fn check_text(
    alloc: Global,
    text: &[u8],
    types: &NamedTypes,
    stack: Stack,
) -> Result<Vec<u8>, Failure>
    requires sound { AreSound types.now }
    requires short { length text.now ≤ most_program_bytes }
    ensures value { AnswersCheck types.now text.now (vec_items_of result) }
{
    let tree = tree_in(alloc, text, stack)?;
    checked(alloc, &tree, types)?;
    Ok(Vec::new(alloc))
}

/// The text of the tables of the program that is spelled by a text, where these types are known.
fn answer_text<R: Threads + Sync, F: Files, G: Gate + Sync>(
    rt: &R,
    alloc: Global,
    text: &[u8],
    types: &NamedTypes,
    settings: &RunSettings,
    files: &mut F,
    gate: &G,
    stack: Stack,
) -> Result<Vec<u8>, Failure>
    requires sound { AreSound types.now }
    requires named { HaveTypeBytes types.now }
    requires few { length (F.names files.old) < 128 }
    requires bounds { HasBounds settings.now }
    requires short { length text.now ≤ most_program_bytes }
    ensures value { AnswersText F.Files types.now settings.now text.now files.old files.new (vec_items_of result) }
    ensures end { OnOk result (ReadToEnd F.Files files.old files.new settings.now.input) }
    ensures names { OnOk result (F.names files.new ≡ F.names files.old ++ settings.now.input ∷ []) }
    ensures saved { IfOk result (λ bytes. settings.now.save ≡ true
        → OfHeld F.Files settings.now.input files.old (λ input. SavedRun types.now text.now settings.now input bytes.items)) }
    ensures kept { KeepsFiles F.held F.left F.given F.faults files.old files.new }
{
    let tree = tree_in(alloc, text, stack)?;
    let program = savable(alloc, &tree, types, settings.save, settings.ignore_undefs)?;
    answer_program(rt, alloc, program, settings, files, gate)
}

/// The text of the program's tables for the input that the settings name, or the saved tables. The input isn't opened where a static faults.
fn answer_program<R: Threads + Sync, F: Files, G: Gate + Sync>(
    rt: &R,
    alloc: Global,
    program: Program,
    settings: &RunSettings,
    files: &mut F,
    gate: &G,
) -> Result<Vec<u8>, Failure>
    requires sound { IsSound program }
    requires can_save { CanSave settings.now.save (marked program settings.now.ignore_undefs) }
    requires few { length (F.names files.old) < 128 }
    requires bounds { HasBounds settings.now }
    ensures value { AnswersOn F.Files settings.now.frame (outcome_of_program (marked program settings.now.ignore_undefs) settings.now) settings.now.input
        files.old files.new (vec_items_of result) }
    ensures end { OnOk result (ReadToEnd F.Files files.old files.new settings.now.input) }
    ensures names { OnOk result (F.names files.new ≡ F.names files.old ++ settings.now.input ∷ []) }
    ensures saved { IfOk result (λ bytes. settings.now.save ≡ true → OfHeld F.Files settings.now.input files.old
        (λ input. SavesTables (marked program settings.now.ignore_undefs) settings.now input bytes.items)) }
    ensures kept { KeepsFiles F.held F.left F.given F.faults files.old files.new }
{
    let (job, workers) = job_with_workers(alloc, program, settings)?;
    tables_of_file(rt, alloc, &job, settings, workers, files, gate)
}
