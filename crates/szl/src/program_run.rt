//! A program run over an input.
ghost use Rattle.std.specs.Prelude.{◌≡◌, ◌<◌, ◌≤◌, ◌*◌, ◌^◌, ◌++◌, ◌∷◌, [], List, true, IfOk, OnOk, length};
ghost use Rattle.sz_mean.specs.Marked.{all_tables, marked};
ghost use Rattle.sz_tabs.specs.Data.{EmitDatum};
ghost use Rattle.sz_total.specs.States.{declarations, emit_count, shown};
ghost use Rattle.sz_total.specs.Totals.{StandsFor};
ghost use Rattle.sz_save.specs.Saving.{HaveSpelling, state_of_emits};
ghost use Rattle.sz_save_format.specs.Saved.{Saves};
ghost use Rattle.szl.specs.Outcome.{written};
ghost use Rattle.sz_gen_rules.specs.Simulates.{static_types};
ghost use Rattle.sz_world_rules.specs.Typed.{AllFit};
ghost use Rattle.sz_attempt.specs.Shards.{IsJob};
ghost use Rattle.sz_io.specs.Opened.{KeepsFiles};
ghost use Rattle.sz_io.specs.Calls.{ReadToEnd};
ghost use Rattle.szl.specs.Saving.{OfHeld, JobSaves};
ghost use Rattle.szl.specs.ProgramRuns.{CanSave, GivesStatics, GivesJob, GivesTables, GivesFile, IsJobOf, vec_items_of};
ghost use Rattle.sz_core.specs.Sound.{IsSound};
ghost use Rattle.sz_words.specs.Bounds.{HasBounds};

use crate::failure::Failure;
use crate::heights::{declares_low, workers_for};
use std::alloc::Global;
use std::thread::Threads;
use sz_attempt::Job;
use sz_core::Program;
use sz_gen_stmt::{Compiled, compile};
use sz_io::{Files, Gate};
use sz_list::Items;
use sz_machine::{StaticsEnd, run_statics};
use sz_print::text_by;
use sz_save::{save, write_saved};
use sz_stream::{InputTables, run_bytes, run_file};
use sz_value::{NoMemory, Slots};
use sz_words::RunSettings;

/// The values of the program's statics, which have `budget` ticks together. A fault of one is a fault of record 0.
pub fn statics_of(alloc: Global, compiled: &Compiled, budget: u64) -> Result<Slots, Failure>
    requires least { 1 ≤ budget }
    requires most { budget ≤ 2 ^ 32 }
    ensures value { GivesStatics compiled.now budget result }
    ensures fit { IfOk result (λ slots. AllFit slots (static_types compiled.now.core)) }
{
    match run_statics(alloc, compiled.code(), budget)? {
        StaticsEnd::Done(slots) => Ok(slots),
        StaticsEnd::Fault(fault) => Err(Failure::Faulted(0, fault)),
    }
}

/// What the attempts of a run have in common, as its settings ask for it.
pub fn job_of(
    alloc: Global,
    compiled: Compiled,
    statics: Slots,
    settings: &RunSettings,
) -> Result<Job, NoMemory>
    ensures value { IfOk result (λ job. IsJobOf compiled statics settings.now job) }
{
    let kills = Items::copied(alloc, settings.kills.as_slice())?;
    let twice = Items::copied(alloc, settings.twice.as_slice())?;
    Ok(Job {
        compiled,
        statics,
        budget: settings.budget,
        skip: settings.skip,
        attempts: settings.attempts,
        kills,
        twice,
    })
}

/// The job of a program, as its settings ask for it, and how many workers run it: one where the types of the program are very high.
pub fn job_with_workers(
    alloc: Global,
    program: Program,
    settings: &RunSettings,
) -> Result<(Job, u32), Failure>
    requires sound { IsSound program }
    requires bounds { HasBounds settings.now }
    ensures value { GivesJob (marked program settings.now.ignore_undefs) settings.now result }
{
    let low = declares_low(&program);
    let compiled = compile(alloc, program, settings.ignore_undefs)?;
    let workers = workers_for(low, &compiled, settings.workers);
    let statics = statics_of(alloc, &compiled, settings.budget)?;
    let job = job_of(alloc, compiled, statics, settings)?;
    Ok((job, workers))
}

/// The text of the program's tables for all records of the file that the settings name, or the saved tables if they ask for them: by the
/// frame and shards that they ask for, run by so many workers.
pub fn tables_of_file<R: Threads + Sync, F: Files, G: Gate + Sync>(
    rt: &R,
    alloc: Global,
    job: &Job,
    settings: &RunSettings,
    workers: u32,
    files: &mut F,
    gate: &G,
) -> Result<Vec<u8>, Failure>
    requires few { length (F.names files.old) < 128 }
    requires job { IsJob job.now }
    requires attempts { (1 ≤ job.now.attempts) × (job.now.attempts ≤ 8) }
    requires bounds { HasBounds settings.now }
    requires workers { (1 ≤ workers) × (workers ≤ 64) }
    requires can_save { CanSave settings.now.save job.now.compiled }
    ensures value { GivesFile F.Files job.now settings.now files.old files.new (vec_items_of result) }
    ensures end { OnOk result (ReadToEnd F.Files files.old files.new settings.now.input) }
    ensures names { OnOk result (F.names files.new ≡ F.names files.old ++ settings.now.input ∷ []) }
    ensures saved { IfOk result (λ bytes. settings.now.save ≡ true
        → OfHeld F.Files settings.now.input files.old (λ input. JobSaves job.now settings.now input bytes.items)) }
    ensures kept { KeepsFiles F.held F.left F.given F.faults files.old files.new }
{
    let file = files.open_file(settings.input.as_str())?;
    let tables = run_file(rt, alloc, job, settings, workers, files, file, gate)?;
    Ok(written(rt, alloc, job, settings.save, workers, &tables)?)
}

/// The same for these bytes.
pub fn tables_of_bytes<R: Threads + Sync, G: Gate + Sync>(
    rt: &R,
    alloc: Global,
    job: &Job,
    settings: &RunSettings,
    workers: u32,
    input: &[u8],
    gate: &G,
) -> Result<Vec<u8>, Failure>
    requires job { IsJob job.now }
    requires attempts { (1 ≤ job.now.attempts) × (job.now.attempts ≤ 8) }
    requires bounds { HasBounds settings.now }
    requires workers { (1 ≤ workers) × (workers ≤ 64) }
    requires can_save { CanSave settings.now.save job.now.compiled }
    ensures value { GivesTables job.now settings.now.save settings.now.shard settings.now.frame input.now ⊥ (vec_items_of result) }
{
    let tables = run_bytes(rt, alloc, job, settings, workers, input, gate)?;
    Ok(written(rt, alloc, job, settings.save, workers, &tables)?)
}

/// What is written of the tables of an input: their text, which so many workers make, or the saved tables.
fn written<R: Threads + Sync>(
    rt: &R,
    alloc: Global,
    job: &Job,
    save: bool,
    workers: u32,
    tables: &InputTables,
) -> Result<Vec<u8>, NoMemory>
    requires workers { 1 ≤ workers }
    requires declared { tables.now.total.tables ≡ all_tables job.now.compiled }
    requires can_save { CanSave save job.now.compiled }
    requires budget { job.now.budget ≤ 2 ^ 32 }
    requires records { tables.now.records ≤ 2 ^ 31 }
    requires few { tables.now.total.count ≤ tables.now.records * job.now.budget }
    ensures value { (emits : List EmitDatum) → StandsFor declarations emit_count shown tables.now.total emits
        → IfOk result (λ bytes. bytes.items ≡ written job.now.compiled save tables.now.records job.now.budget emits) }
    ensures file { IfOk result (λ bytes. save ≡ true → (emits : List EmitDatum) → StandsFor declarations emit_count shown tables.now.total emits
        → Saves bytes.items (state_of_emits (tables.now.records * job.now.budget) (all_tables job.now.compiled) emits)) }
{
    if save {
        saved(alloc, job, tables)
    } else {
        text_by(rt, alloc, &tables.total, job.compiled.tables(), workers)
    }
}

/// The saved tables of an input, with the ticks of all its records for a bound.
#[tactic(auto, using(crate::proofs::BoundLemmas::low_product, crate::proofs::BoundLemmas::product_fits))]
fn saved(alloc: Global, job: &Job, tables: &InputTables) -> Result<Vec<u8>, NoMemory>
    requires declared { tables.now.total.tables ≡ all_tables job.now.compiled }
    requires spelled { HaveSpelling (all_tables job.now.compiled) }
    requires budget { job.now.budget ≤ 2 ^ 32 }
    requires records { tables.now.records ≤ 2 ^ 31 }
    requires few { tables.now.total.count ≤ tables.now.records * job.now.budget }
    ensures value { (emits : List EmitDatum) → StandsFor declarations emit_count shown tables.now.total emits
        → IfOk result (λ bytes. bytes.items ≡ written job.now.compiled true tables.now.records job.now.budget emits) }
    ensures file { IfOk result (λ bytes. (emits : List EmitDatum) → StandsFor declarations emit_count shown tables.now.total emits
        → Saves bytes.items (state_of_emits (tables.now.records * job.now.budget) (all_tables job.now.compiled) emits)) }
{
    let bound = tables.records * job.budget;
    let saved = save(alloc, &tables.total, job.compiled.tables(), bound)?;
    let bytes = write_saved(alloc, &saved)?;
    Ok(bytes.into_vec())
}
