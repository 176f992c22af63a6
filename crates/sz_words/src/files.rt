//! The names of files that a command has.
ghost use Rattle.std.specs.Prelude.{◌≡◌, ◌∷◌, ℕ, List, map, length, true, false, option_map, IfOk, MatchOption};
ghost use Rattle.sz_words.specs.Settings.{files_in, all_are_files, are_files, can_be_joined};
ghost use Rattle.sz_words.specs.Bounds.{InRange};

use crate::settings::Texts;
use std::alloc::{AllocError, Global};
use sz_list::Items;
use sz_types::Text;

/// The most files of `merge`.
const MOST_FILES: usize = 64;

/// The program and the input that two names are, beside the file of `--proto`.
pub fn files_in<'n>(proto: Option<&str>, names: &[&'n str]) -> Option<(&'n str, &'n str)>
    ensures value { option_map (λ f. (f.0.now, f.1.now)) result
        ≡ files_in (option_map (λ p. p.now) proto.entry) (map (λ n. n.now) names.now) }
{
    match names {
        [program, input] if all_are_files(proto, names) => Some((*program, *input)),
        _ => None,
    }
}

/// Whether the file of `--proto`, if there is one, and these can be named so.
pub fn all_are_files(proto: Option<&str>, names: &[&str]) -> bool
    ensures value { result ≡ all_are_files (option_map (λ p. p.now) proto.entry) (map (λ n. n.now) names.now) }
{
    match proto {
        None => are_files(1, names),
        Some(file) => match inputs_after(1, file) {
            None => false,
            Some(inputs) => are_files(inputs, names),
        },
    }
}

// Whether files can be named so, where standard input may be so many of them.
fn are_files(inputs: usize, names: &[&str]) -> bool
    ensures value { result ≡ are_files inputs (map (λ n. n.now) names.now) }
{
    let mut left = inputs;
    for name in names {
        match inputs_after(left, name) {
            None => return false,
            Some(inputs) => left = inputs,
        }
    }
    true
}

// How many of the files after one may be standard input, where so many may with it; none where no file can be named so.
#[tactic(auto, using(crate::proofs::FileLemmas::no_name, crate::proofs::FileLemmas::no_input, crate::proofs::FileLemmas::one_input, crate::proofs::FileLemmas::one_named))]
fn inputs_after(inputs: usize, name: &str) -> Option<usize>
    ensures value { MatchOption result ((names : List (List ℕ)) → are_files inputs (name.now ∷ names) ≡ false)
        (λ left. (names : List (List ℕ)) → are_files inputs (name.now ∷ names) ≡ are_files left names) }
{
    if name.is_empty() {
        return None;
    }
    if name != "-" {
        return Some(inputs);
    }
    if inputs == 0 { None } else { Some(inputs - 1) }
}

/// Whether so many files can be joined, and can be named so.
pub fn can_be_joined(names: &[&str]) -> bool
    ensures value { result ≡ can_be_joined (map (λ n. n.now) names.now) }
    ensures bounds { result ≡ true → InRange 1 64 (length (map (λ n. n.now) names.now)) }
{
    !names.is_empty() && names.len() <= MOST_FILES && are_files(1, names)
}

/// The names as texts.
pub fn texts_of(alloc: Global, names: &[&str]) -> Result<Texts, AllocError>
    ensures value { IfOk result (λ texts. texts ≡ map (λ n. n.now) names.now) }
{
    let mut texts = Items::new(alloc);
    for name in names {
        texts.push(Text::from_str(alloc, name)?)?;
    }
    Ok(texts)
}

/// The text that an option's value is.
pub fn text_of(alloc: Global, value: Option<&str>) -> Result<Option<Text>, AllocError>
    ensures value { IfOk result (λ text. text ≡ option_map (λ v. v.now) value.entry) }
{
    match value {
        None => Ok(None),
        Some(text) => Ok(Some(Text::from_str(alloc, text)?)),
    }
}
