//! Saved files merged.
ghost use Rattle.std.specs.Prelude.{◌≡◌, ◌≢◌, ◌+◌, ◌<◌, ◌≤◌, [], suc, List, IfOk, OnOk, IfErr, length};
ghost use Rattle.sz_io.specs.Rose.{Rose};
ghost use Rattle.sz_io.specs.Opened.{KeepsFiles};
ghost use Rattle.sz_io.specs.Calls.{NamesGain, OpensOne, ReadToEnd};
ghost use Rattle.sz_save_format.specs.Saved.{SavedState};
ghost use Rattle.sz_merge.specs.Groups.{AreOf};
ghost use Rattle.szl.specs.Merging.{merged_output};
ghost use Rattle.szl.specs.MergeAnswers.{StandFor, AddsFile, AnswersFrom, AnswersMerge, IsOutputOf, lacks_memory, status_of_adding};
ghost use Rattle.szl.specs.Promise.{IfRead, AreReadToEnd};
ghost use Rattle.szl.specs.ProgramRuns.{vec_items_of};

use crate::failure::Failure;
use crate::opening::read_text;
use std::alloc::Global;
use sz_io::Files;
use sz_merge::{MergeError, Merging};
use sz_print::text_rows;
use sz_save::{Saved, write_saved};
use sz_types::Text;
use sz_value::NoMemory;

/// The most bytes of a saved file.
const MOST_SAVED_BYTES: usize = 1 << 40;

/// What the files under these names hold together, as a text, or as a saved file where that is asked for. Each file is read whole, and its
/// bytes are given back before the next one is opened. In failures files are numbered from 1.
pub fn answer_merge<F: Files>(
    alloc: Global,
    names: &[Text],
    save: bool,
    files: &mut F,
) -> Result<Vec<u8>, Failure>
    requires few { length (F.names files.old) ≤ 64 }
    requires some { 1 ≤ length names.now }
    requires most { length names.now ≤ 64 }
    ensures value { AnswersMerge F.Files names.now save files.old files.new (vec_items_of result) }
    ensures end { OnOk result (AreReadToEnd F.Files files.old files.new names.now) }
    ensures kept { KeepsFiles F.held F.left F.given F.faults files.old files.new }
{
    answer_rest(alloc, Merging::new(alloc), 0, names, save, files)
}

/// The same after files that were merged already, as many as `done` says.
fn answer_rest<F: Files>(
    alloc: Global,
    merging: Merging,
    done: u64,
    names: &[Text],
    save: bool,
    files: &mut F,
) -> Result<Vec<u8>, Failure>
    requires few { length (F.names files.old) + length names.now ≤ 128 }
    requires some { merging ≡ [] → 1 ≤ length names.now }
    requires files { 1 ≤ done + length names.now }
    requires most { done + length names.now ≤ 64 }
    ensures value { (before : List SavedState) → StandFor merging before done
        → AnswersFrom F.Files before names.now save files.old files.new (vec_items_of result) }
    ensures end { OnOk result (AreReadToEnd F.Files files.old files.new names.now) }
    ensures kept { KeepsFiles F.held F.left F.given F.faults files.old files.new }
{
    let [name, rest @ ..] = names else {
        return output_of_all(alloc, merging, save);
    };
    let merging = with_file(alloc, merging, done + 1, name.as_str(), files)?;
    answer_rest(alloc, merging, done + 1, rest, save, files)
}

/// The merging with the file of this name and number.
fn with_file<F: Files>(
    alloc: Global,
    merging: Merging,
    number: u64,
    name: &str,
    files: &mut F,
) -> Result<Merging, Failure>
    requires few { length (F.names files.old) < 128 }
    ensures value { (before : List SavedState) → AreOf merging before → number ≡ suc (length before)
        → AddsFile (F.held files.old name.now) before (Rose (F.faults files.old) (F.faults files.new)) result }
    ensures some { IfOk result (λ more. more ≢ []) }
    ensures names { NamesGain (lacks_memory result) (F.names files.old) (F.names files.new) name.now }
    ensures opened { IfRead (status_of_adding result) (OpensOne F.Files files.old files.new) }
    ensures end { OnOk result (ReadToEnd F.Files files.old files.new name.now) }
    ensures kept { KeepsFiles F.held F.left F.given F.faults files.old files.new }
{
    let bytes = read_text(
        alloc,
        files,
        name,
        MOST_SAVED_BYTES,
        Failure::Limit(MOST_SAVED_BYTES as u64),
    )?;
    match merging.add(alloc, &bytes) {
        Ok(more) => Ok(more),
        Err(MergeError::BadTables) => Err(Failure::BadTables(number)),
        Err(MergeError::OtherTables) => Err(Failure::OtherTables(number)),
        Err(MergeError::TablesLimit) => Err(Failure::TablesLimit(number)),
        Err(MergeError::NoMemory) => Err(Failure::NoMemory),
    }
}

/// What all files hold together, as a text or as a saved file.
fn output_of_all(alloc: Global, merging: Merging, save: bool) -> Result<Vec<u8>, Failure>
    requires some { merging ≢ [] }
    ensures value { (before : List SavedState) → AreOf merging before → IfOk result (λ output. IsOutputOf before save output.items) }
    ensures err { IfErr result (λ failure. failure ≡ Failure.NoMemory) }
{
    let all = merging.finish(alloc)?;
    let output = output_of(alloc, &all, save)?;
    Ok(output)
}

/// The text of the tables, or the bytes of a saved file.
fn output_of(alloc: Global, all: &Saved, save: bool) -> Result<Vec<u8>, NoMemory>
    ensures value { IfOk result (λ output. output.items ≡ merged_output save all.now) }
{
    // a saved state tells that it has as many tables as declarations
    let _ = all.bound();
    let octets = if save {
        write_saved(alloc, all)?
    } else {
        text_rows(alloc, all.decls(), all.tables())?
    };
    Ok(octets.into_vec())
}
