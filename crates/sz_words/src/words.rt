//! The words after a command, as `clap` reads them.
ghost use Rattle.std.specs.Prelude.{◌≡◌, ◌∷◌, [], ℕ, map, true, string_bytes, IfOk, IfErr};
ghost use Rattle.std.specs.Prelude.{Some, None};
ghost use Rattle.std.specs.Prelude.{option_map, length, false, ◌≢◌};
ghost use Rattle.clap.specs.Words.{app_of, kind_of, rule_of};
ghost use Rattle.clap.specs.declared.error.kind.ErrorKind.TheVariants.{OutOfMemory};
ghost use Rattle.sz_words.specs.Parts.{Parts, is_dashed, is_name, parts_of};
ghost use Rattle.sz_words.specs.Dashes.{dashes_fit, value_follows};
ghost use Rattle.sz_words.specs.Matches.{HasParts, values_in};
ghost use Rattle.sz_words.specs.Settings.{stand_at_most, value_of};
ghost use Rattle.sz_words.specs.Asked.{asked_app, asked_names, asked_option};
ghost use Rattle.sz_words.specs.declared.error.WordsError.TheVariants.{NoMemory, Usage};

use crate::error::WordsError;
use clap::error::ErrorKind;
use clap::{Arg, ArgAction, ArgMatches, Command, Error};
use std::alloc::{AllocError, Global};

/// The options with a value, without their dashes: `--proto` first, and then those that `run` and `resume` alone take.
pub const OPTIONS: [&str; 9] = [
    "proto", "frame", "workers", "shard", "attempts", "budget", "skip", "kill", "twice",
];

/// The words after a command as options and names. `clap` reads them once their dashes fit, since it would read more.
pub fn matches_of<'a>(alloc: Global, words: &'a [String]) -> Result<ArgMatches<'a>, WordsError>
    ensures value { IfOk result (λ m. (parts : Parts) × (parts_of (map string_bytes words.now) ≡ Some parts) × HasParts m parts) }
    ensures usage { IfErr result (λ e. e ≡ Usage → parts_of (map string_bytes words.now) ≡ None) }
{
    if !dashes_fit(words) {
        return Err(WordsError::Usage);
    }
    match asked(alloc)?.try_get_matches_from(words) {
        Ok(matches) => Ok(matches),
        Err(error) => Err(cause_of(&error)),
    }
}

// Why `clap` gave no matches.
fn cause_of(error: &Error) -> WordsError
    ensures usage { result ≡ Usage → kind_of error.now ≢ OutOfMemory }
    ensures memory { result ≡ NoMemory → kind_of error.now ≡ OutOfMemory }
{
    match error.kind() {
        ErrorKind::OutOfMemory => WordsError::NoMemory,
        _ => WordsError::Usage,
    }
}

// One command with the options that have a value and any number of names. It takes an option as often as it stands, so that one
// that stands twice is seen here.
fn asked<'a>(alloc: Global) -> Result<Command<'a>, AllocError>
    ensures value { IfOk result (λ c. app_of c ≡ asked_app) }
{
    let mut command = Command::new(alloc, "szl")
        .no_binary_name(true)
        .disable_help_flag(true)
        .disable_version_flag(true);
    for name in OPTIONS {
        command = command.arg(option(alloc, name))?;
    }
    command.arg(names(alloc))
}

// An option, with a value each time that it stands.
fn option<'a>(alloc: Global, name: &'a str) -> Arg<'a>
    ensures value { rule_of result ≡ asked_option name.now }
    ensures global { result.global ≡ false }
{
    Arg::new(alloc, name).long(name).action(ArgAction::Append)
}

// The names, any number of them.
fn names<'a>(alloc: Global) -> Arg<'a>
    ensures value { rule_of result ≡ asked_names }
    ensures global { result.global ≡ false }
{
    Arg::new(alloc, "name").action(ArgAction::Append)
}

// Whether the dashes of the words fit: `clap` would take `-` for an option's value, and read options of one dash.
fn dashes_fit(words: &[String]) -> bool
    ensures value { result ≡ dashes_fit false (map string_bytes words.now) }
{
    let mut is_value = false;
    for word in words {
        if !is_value && word.as_str() == "--" {
            return true;
        }
        match value_follows(is_value, word) {
            None => return false,
            Some(follows) => is_value = follows,
        }
    }
    true
}

// Whether a value follows a word that is an option's value or isn't; none where the word's dashes don't fit.
fn value_follows(is_value: bool, word: &str) -> Option<bool>
    ensures value { result ≡ value_follows is_value word.now }
{
    if is_value {
        return if is_dashed(word) { None } else { Some(false) };
    }
    if is_name(word) {
        return Some(false);
    }
    match word.as_bytes() {
        [b'-', b'-', text @ ..] => Some(!text.contains(&b'=')),
        _ => None,
    }
}

// Whether the word is a name wherever it stands.
fn is_name(word: &str) -> bool
    ensures value { result ≡ is_name word.now }
{
    !is_dashed(word) || word == "-"
}

// Whether the word begins with `-`.
fn is_dashed(word: &str) -> bool
    ensures value { result ≡ is_dashed word.now }
{
    match word.as_bytes() {
        [] => false,
        [first, ..] => *first == b'-',
    }
}

/// The value that was given to an option, if one was.
#[tactic(auto, using(crate::proofs::MatchLemmas::first_is))]
pub fn value_of<'a>(matches: &ArgMatches<'a>, name: &str) -> Option<&'a str>
    ensures value { option_map (λ v. v.now) result ≡ value_of (values_in matches.now) name.now }
{
    matches.get_str(name)
}

// How often an option was given.
fn count(matches: &ArgMatches, name: &str) -> usize
    ensures value { result ≡ length (values_in matches.now name.now) }
{
    match matches.get_raw(name) {
        None => 0,
        Some(values) => values.len(),
    }
}

/// Whether each of these options was given so many times at the most.
pub fn stand_at_most(matches: &ArgMatches, most: usize, names: &[&str]) -> bool
    ensures value { result ≡ stand_at_most most (values_in matches.now) (map (λ n. n.now) names.now) }
{
    for name in names {
        if count(matches, name) > most {
            return false;
        }
    }
    true
}
