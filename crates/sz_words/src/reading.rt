//! What a command line asks for, read from its words.
ghost use Rattle.std.specs.Prelude.{◌≡◌, map, not, true, false, string_bytes, IfOk, IfErr, Some, None};
ghost use Rattle.std.specs.Prelude.{option_map, IfSome, if◌then◌else◌};
ghost use Rattle.sz_words.specs.Matches.{names_in, values_in};
ghost use Rattle.sz_words.specs.Settings.{settings_in, frame_in, number_or, kills_or_none, shards_or_none};
ghost use Rattle.sz_words.specs.Settings.{value_of, is_proto_alone};
ghost use Rattle.sz_words.specs.Settings.{numbers_in, run_with, run_settings, check_settings, selftest_settings};
ghost use Rattle.sz_words.specs.Settings.{merge_settings, command_settings, plain_settings, with_flag, with_flags, line_settings};
ghost use Rattle.sz_words.specs.Bounds.{HasBounds, InRange, IsBounded, NumbersHaveBounds};
ghost use Rattle.sz_words.specs.declared.error.WordsError.TheVariants.{Usage};
ghost use Rattle.sz_words.specs.declared.settings.Settings.TheVariants.{Run};

use crate::error::WordsError;
use crate::files::{all_are_files, can_be_joined, files_in, text_of, texts_of};
use crate::flags::{Flag, flags_apart};
use crate::lists::{kills_in, shards_in};
use crate::numbers::{number_in, small_number_in};
use crate::settings::{DEFAULT_SHARD, Kills, RunSettings, Settings, Twice};
use crate::words::{OPTIONS, matches_of, stand_at_most, value_of};
use clap::ArgMatches;
use std::alloc::Global;
use sz_list::Items;
use sz_types::{Frame, Text};

/// What the words after the program's name ask for: the first word is the command, and after it stand its options and names.
///
/// `Usage` comes exactly where they are no command line: no word, no such command, an option that the command doesn't take or that stands twice, a
/// value out of its range, or other names than the command has. No file is opened to find out. `NoMemory` comes where there was no memory.
pub fn read_words(alloc: Global, words: &[String]) -> Result<Settings, WordsError>
    ensures value { IfOk result (λ s. settings_in (map string_bytes words.now) ≡ Some s) }
    ensures usage { IfErr result (λ e. e ≡ Usage → settings_in (map string_bytes words.now) ≡ None) }
    ensures bounds { IfOk result IsBounded }
{
    match words {
        [] => Err(WordsError::Usage),
        [command, words @ ..] => line_settings(alloc, command, words),
    }
}

// What is asked for by a command and the words after it.
fn line_settings(alloc: Global, command: &str, words: &[String]) -> Result<Settings, WordsError>
    ensures value { IfOk result (λ s. line_settings command.now (map string_bytes words.now) ≡ Some s) }
    ensures usage { IfErr result (λ e. e ≡ Usage → line_settings command.now (map string_bytes words.now) ≡ None) }
    ensures bounds { IfOk result IsBounded }
{
    let apart = flags_apart(alloc, words)?;
    let settings = plain_settings(alloc, command, &apart.plain)?;
    with_flags(settings, &apart.flags).ok_or(WordsError::Usage)
}

// The settings with these flags, if they take them.
fn with_flags(settings: Settings, flags: &[Flag]) -> Option<Settings>
    ensures value { result ≡ with_flags flags.now settings }
    ensures bounds { IsBounded settings → IfSome result IsBounded }
{
    let mut settings = settings;
    for flag in flags {
        if !take_flag(&mut settings, *flag) {
            return None;
        }
    }
    Some(settings)
}

// Whether the settings take this flag, which stands there then.
fn take_flag(settings: &mut Settings, flag: Flag) -> bool
    ensures value { with_flag flag settings.old ≡ (if result then Some settings.new else None) }
    ensures bounds { IsBounded settings.old → IsBounded settings.new }
{
    match (flag, settings) {
        (Flag::IgnoreUndefs, Settings::Run(run)) => raise(&mut run.ignore_undefs),
        (Flag::IgnoreUndefs, Settings::Resume(run)) => raise(&mut run.ignore_undefs),
        (Flag::Save, Settings::Run(run)) => raise(&mut run.save),
        (Flag::Save, Settings::Merge { save, .. }) => raise(save),
        _ => false,
    }
}

// Raises a mark, and tells whether it was down.
fn raise(mark: &mut bool) -> bool
    ensures value { result ≡ not mark.old }
    ensures raised { mark.new ≡ true }
{
    let was = *mark;
    *mark = true;
    !was
}

// What is asked for by a command and the words after it that are no flags.
fn plain_settings(alloc: Global, command: &str, words: &[String]) -> Result<Settings, WordsError>
    ensures value { IfOk result (λ s. plain_settings command.now (map string_bytes words.now) ≡ Some s) }
    ensures usage { IfErr result (λ e. e ≡ Usage → plain_settings command.now (map string_bytes words.now) ≡ None) }
    ensures bounds { IfOk result IsBounded }
{
    let matches = matches_of(alloc, words)?;
    command_settings(alloc, command, &matches)
}

// What is asked for by a command with these options and names after it.
fn command_settings(
    alloc: Global,
    command: &str,
    matches: &ArgMatches,
) -> Result<Settings, WordsError>
    ensures value { IfOk result (λ s.
        command_settings command.now (values_in matches.now) (names_in matches.now) ≡ Some s) }
    ensures usage { IfErr result (λ e. e ≡ Usage
        → command_settings command.now (values_in matches.now) (names_in matches.now) ≡ None) }
    ensures bounds { IfOk result IsBounded }
{
    let Some(names) = matches.get_raw("name") else {
        return Err(WordsError::Usage);
    };
    match command {
        "run" => Ok(Settings::Run(run_settings(alloc, matches, names)?)),
        "resume" => Ok(Settings::Resume(run_settings(alloc, matches, names)?)),
        "check" => check_settings(alloc, matches, names),
        "selftest" => selftest_settings(matches, names).ok_or(WordsError::Usage),
        "merge" => merge_settings(alloc, matches, names),
        _ => Err(WordsError::Usage),
    }
}

// What is asked for by `run PROGRAM INPUT`, and by `resume PROGRAM INPUT`.
fn run_settings(
    alloc: Global,
    options: &ArgMatches,
    names: &[&str],
) -> Result<RunSettings, WordsError>
    ensures value { IfOk result (λ s. run_settings (values_in options.now) (map (λ n. n.now) names.now) ≡ Some s) }
    ensures usage { IfErr result (λ e. e ≡ Usage → run_settings (values_in options.now) (map (λ n. n.now) names.now) ≡ None) }
    ensures bounds { IfOk result HasBounds }
    ensures unsaved { IfOk result (λ s. s.save ≡ false) }
{
    let Some((program, input)) = files_in(value_of(options, "proto"), names) else {
        return Err(WordsError::Usage);
    };
    if !stand_at_most(options, 1, &OPTIONS) {
        return Err(WordsError::Usage);
    }
    run_with(alloc, options, program, input)
}

// What is asked for by `run` with these options, a program and an input.
#[tactic(auto, unfolding(crate::specs::Settings::run_with))]
fn run_with(
    alloc: Global,
    options: &ArgMatches,
    program: &str,
    input: &str,
) -> Result<RunSettings, WordsError>
    ensures value { IfOk result (λ s. run_with (values_in options.now) program.now input.now ≡ Some s) }
    ensures usage { IfErr result (λ e. e ≡ Usage → run_with (values_in options.now) program.now input.now ≡ None) }
    ensures bounds { IfOk result HasBounds }
    ensures unsaved { IfOk result (λ s. s.save ≡ false) }
{
    let Some(numbers) = numbers_in(options) else {
        return Err(WordsError::Usage);
    };
    let kills = kills_or_none(alloc, value_of(options, "kill"))?;
    let twice = shards_or_none(alloc, value_of(options, "twice"))?;
    Ok(RunSettings {
        program: Text::from_str(alloc, program)?,
        input: Text::from_str(alloc, input)?,
        proto: text_of(alloc, value_of(options, "proto"))?,
        frame: numbers.frame,
        workers: numbers.workers,
        shard: numbers.shard,
        attempts: numbers.attempts,
        budget: numbers.budget,
        skip: numbers.skip,
        kills,
        twice,
        ignore_undefs: false,
        save: false,
    })
}

/// What the options with one number or word ask for.
#[derive(Clone, Copy)]
pub struct Numbers {
    pub frame: Frame,
    pub workers: u32,
    pub shard: u32,
    pub attempts: u32,
    pub budget: u64,
    pub skip: u32,
}

// What the options with one number or word ask for.
fn numbers_in(options: &ArgMatches) -> Option<Numbers>
    ensures value { result ≡ numbers_in (values_in options.now) }
    ensures bounds { IfSome result NumbersHaveBounds }
{
    let frame = frame_in(value_of(options, "frame"))?;
    let workers = small_number_or(4, 1, 64, value_of(options, "workers"))?;
    let shard = small_number_or(DEFAULT_SHARD, 1, 65_536, value_of(options, "shard"))?;
    let attempts = small_number_or(3, 1, 8, value_of(options, "attempts"))?;
    let budget = number_or(1 << 24, 1, 1 << 32, value_of(options, "budget"))?;
    let skip = small_number_or(0, 0, 1_000, value_of(options, "skip"))?;
    Some(Numbers {
        frame,
        workers,
        shard,
        attempts,
        budget,
        skip,
    })
}

// The frame that the value of `--frame` names.
fn frame_in(value: Option<&str>) -> Option<Frame>
    ensures value { result ≡ frame_in (option_map (λ v. v.now) value.entry) }
{
    match value {
        None => Some(Frame::Lines),
        Some("lines") => Some(Frame::Lines),
        Some("delimited") => Some(Frame::Delimited),
        Some(_) => None,
    }
}

// The number that an option's value writes, and another where the option isn't given.
fn number_or(default: u64, least: u64, most: u64, value: Option<&str>) -> Option<u64>
    requires { InRange least most default }
    ensures value { result ≡ number_or default least most (option_map (λ v. v.now) value.entry) }
    ensures within { IfSome result (InRange least most) }
{
    match value {
        None => Some(default),
        Some(word) => number_in(word.as_bytes(), least, most),
    }
}

// The same, of numbers of 32 bits.
fn small_number_or(default: u32, least: u32, most: u32, value: Option<&str>) -> Option<u32>
    requires { InRange least most default }
    ensures value { result ≡ number_or default least most (option_map (λ v. v.now) value.entry) }
    ensures within { IfSome result (InRange least most) }
{
    match value {
        None => Some(default),
        Some(word) => small_number_in(word.as_bytes(), least, most),
    }
}

// The kills that the value of `--kill` names.
fn kills_or_none(alloc: Global, value: Option<&str>) -> Result<Kills, WordsError>
    ensures value { IfOk result (λ kills. kills_or_none (option_map (λ v. v.now) value.entry) ≡ Some kills) }
    ensures usage { IfErr result (λ e. e ≡ Usage → kills_or_none (option_map (λ v. v.now) value.entry) ≡ None) }
{
    match value {
        None => Ok(Items::new(alloc)),
        Some(text) => kills_in(alloc, text.as_bytes()),
    }
}

// The shards that the value of `--twice` names.
fn shards_or_none(alloc: Global, value: Option<&str>) -> Result<Twice, WordsError>
    ensures value { IfOk result (λ shards. shards_or_none (option_map (λ v. v.now) value.entry) ≡ Some shards) }
    ensures usage { IfErr result (λ e. e ≡ Usage → shards_or_none (option_map (λ v. v.now) value.entry) ≡ None) }
{
    match value {
        None => Ok(Items::new(alloc)),
        Some(text) => shards_in(alloc, text.as_bytes()),
    }
}

// What is asked for by `check PROGRAM`, which takes `--proto`.
fn check_settings(
    alloc: Global,
    options: &ArgMatches,
    names: &[&str],
) -> Result<Settings, WordsError>
    ensures value { IfOk result (λ s. check_settings (values_in options.now) (map (λ n. n.now) names.now) ≡ Some s) }
    ensures usage { IfErr result (λ e. e ≡ Usage → check_settings (values_in options.now) (map (λ n. n.now) names.now) ≡ None) }
    ensures bounds { IfOk result IsBounded }
{
    let proto = value_of(options, "proto");
    match names {
        [program] if is_proto_alone(options) && all_are_files(proto, names) => {
            Ok(Settings::Check {
                program: Text::from_str(alloc, program)?,
                proto: text_of(alloc, proto)?,
            })
        }
        _ => Err(WordsError::Usage),
    }
}

// Whether `--proto` stands once at the most, and no option of `run` and `resume` alone.
fn is_proto_alone(options: &ArgMatches) -> bool
    ensures value { result ≡ is_proto_alone (values_in options.now) }
{
    stand_at_most(options, 0, &OPTIONS[1..]) && stand_at_most(options, 1, &["proto"])
}

// What is asked for by `selftest SEED RECORDS WORKERS`, which takes no options.
fn selftest_settings(options: &ArgMatches, names: &[&str]) -> Option<Settings>
    ensures value { result ≡ selftest_settings (values_in options.now) (map (λ n. n.now) names.now) }
    ensures bounds { IfSome result IsBounded }
{
    match names {
        [seed, records, workers] if stand_at_most(options, 0, &OPTIONS) => {
            let seed = number_in(seed.as_bytes(), 0, i64::MAX as u64)?;
            let records = small_number_in(records.as_bytes(), 0, 1_000_000)?;
            let workers = small_number_in(workers.as_bytes(), 1, 64)?;
            Some(Settings::Selftest {
                seed,
                records,
                workers,
            })
        }
        _ => None,
    }
}

// What is asked for by `merge FILE {FILE}`, which takes no option with a value.
fn merge_settings(
    alloc: Global,
    options: &ArgMatches,
    names: &[&str],
) -> Result<Settings, WordsError>
    ensures value { IfOk result (λ s. merge_settings (values_in options.now) (map (λ n. n.now) names.now) ≡ Some s) }
    ensures usage { IfErr result (λ e. e ≡ Usage → merge_settings (values_in options.now) (map (λ n. n.now) names.now) ≡ None) }
    ensures bounds { IfOk result IsBounded }
{
    if !stand_at_most(options, 0, &OPTIONS) || !can_be_joined(names) {
        return Err(WordsError::Usage);
    }
    Ok(Settings::Merge {
        files: texts_of(alloc, names)?,
        save: false,
    })
}
