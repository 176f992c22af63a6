//! The self test: its program, run over the input that is generated for it.
ghost use Rattle.std.specs.Prelude.{◌≡◌, ◌≤◌, IfOk};
ghost use Rattle.sz_core.specs.Sound.{IsSound};
ghost use Rattle.sz_feed.specs.Feed.{file_of};
ghost use Rattle.sz_feed.specs.Program.{program_text};
ghost use Rattle.sz_mean.specs.Marked.{marked};
ghost use Rattle.szl.specs.Opening.{AnswersOver, AnswersTextOver};
ghost use Rattle.szl.specs.ProgramRuns.{CanSave, vec_items_of};
ghost use Rattle.sz_words.specs.Bounds.{HasBounds};
ghost use Rattle.szl.specs.Settings.{selftest_run};

use crate::failure::Failure;
use crate::heights::Stack;
use crate::judge::tree_in;
use crate::program_run::{job_of, statics_of, tables_of_bytes};
use crate::savable::savable;
use std::alloc::{AllocError, Global};
use std::thread::Threads;
use sz_core::Program;
use sz_feed::{feed, program_bytes};
use sz_gen_stmt::compile;
use sz_io::Gate;
use sz_list::Items;
use sz_protofile_types::NamedTypes;
use sz_types::{Frame, Text};
use sz_words::{DEFAULT_SHARD, RunSettings};

/// The text of the tables of the self test's program for the file of the seed, of this many records.
pub fn answer_selftest<R: Threads + Sync, G: Gate + Sync>(
    rt: &R,
    alloc: Global,
    seed: u64,
    records: u32,
    workers: u32,
    gate: &G,
) -> Result<Vec<u8>, Failure>
    requires within { records ≤ 1000000 }
    requires workers { (1 ≤ workers) × (workers ≤ 64) }
    ensures value { AnswersTextOver (selftest_run workers) program_text (file_of seed records) (vec_items_of result) }
{
    let settings = selftest_run(alloc, workers)?;
    let input = feed(alloc, seed, records)?;
    let tree = tree_in(alloc, program_bytes(), Stack::Large)?;
    let types = NamedTypes::new(alloc);
    let program = savable(alloc, &tree, &types, settings.save, settings.ignore_undefs)?;
    answer_over(rt, alloc, program, &settings, &input, gate)
}

/// What the self test asks of the run of its program.
fn selftest_run(alloc: Global, workers: u32) -> Result<RunSettings, AllocError>
    ensures value { IfOk result (λ settings. settings ≡ selftest_run workers) }
{
    Ok(RunSettings {
        program: Text::from_str(alloc, "")?,
        input: Text::from_str(alloc, "")?,
        frame: Frame::Delimited,
        workers,
        shard: DEFAULT_SHARD,
        attempts: 3,
        budget: 1 << 24,
        skip: 0,
        kills: Items::new(alloc),
        twice: Items::new(alloc),
        ignore_undefs: false,
        save: false,
        proto: None,
    })
}

/// The text of the program's tables for these bytes, as these settings ask for it.
fn answer_over<R: Threads + Sync, G: Gate + Sync>(
    rt: &R,
    alloc: Global,
    program: Program,
    settings: &RunSettings,
    input: &[u8],
    gate: &G,
) -> Result<Vec<u8>, Failure>
    requires sound { IsSound program }
    requires can_save { CanSave settings.now.save (marked program settings.now.ignore_undefs) }
    requires bounds { HasBounds settings.now }
    ensures value { AnswersOver (marked program settings.now.ignore_undefs) settings.now input.now (vec_items_of result) }
{
    let compiled = compile(alloc, program, settings.ignore_undefs)?;
    let statics = statics_of(alloc, &compiled, settings.budget)?;
    let job = job_of(alloc, compiled, statics, settings)?;
    tables_of_bytes(rt, alloc, &job, settings, settings.workers, input, gate)
}
