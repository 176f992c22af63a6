//! The lists of `--kill` and `--twice`.
ghost use Rattle.std.specs.Prelude.{◌≡◌, ◌∷◌, [], List, ℕ, IfOk, IfErr, OnOk, Some, None};
ghost use Rattle.sz_words.specs.Texts.{pieces};
ghost use Rattle.sz_words.specs.Lists.{kills_with, kills_in, kill_of, is_killed, shards_with, shards_in, is_among};
ghost use Rattle.sz_words.specs.declared.error.WordsError.TheVariants.{Usage};

use crate::error::WordsError;
use crate::numbers::small_number_in;
use crate::settings::{Kill, Kills, Twice};
use crate::texts::cut;
use std::alloc::Global;
use sz_list::Items;

/// The most entries of a list.
const MOST_ENTRIES: usize = 10_000;

/// The greatest number of a shard.
const LAST_SHARD: u32 = 0x7fff_ffff;

/// The kills that a list of entries `S.K.J` names.
pub fn kills_in(alloc: Global, text: &[u8]) -> Result<Kills, WordsError>
    ensures value { IfOk result (λ kills. kills_in text.now ≡ Some kills) }
    ensures usage { IfErr result (λ e. e ≡ Usage → kills_in text.now ≡ None) }
{
    let mut kills = Items::new(alloc);
    let mut rest = text;
    while let Some((entry, later)) = cut(b',', rest) {
        add_kill(&mut kills, entry)?;
        rest = later;
    }
    add_kill(&mut kills, rest)?;
    Ok(kills)
}

// Adds the kill that an entry names.
fn add_kill(kills: &mut Kills, entry: &[u8]) -> Result<(), WordsError>
    ensures value { OnOk result ((more : List (List ℕ)) → kills_with kills.old (entry.now ∷ more) ≡ kills_with kills.new more) }
    ensures usage { IfErr result (λ e. e ≡ Usage → (more : List (List ℕ)) → kills_with kills.old (entry.now ∷ more) ≡ None) }
{
    let Some(kill) = kill_in(entry) else {
        return Err(WordsError::Usage);
    };
    if kills.len() >= MOST_ENTRIES || is_killed(kills.as_slice(), kill.shard, kill.number) {
        return Err(WordsError::Usage);
    }
    kills.push(kill)?;
    Ok(())
}

// The kill that an entry names.
#[tactic(auto, using(crate::proofs::ListLemmas::too_many))]
fn kill_in(entry: &[u8]) -> Option<Kill>
    ensures value { result ≡ kill_of (pieces 46 entry.now) }
{
    let (shard, later) = cut(b'.', entry)?;
    let (number, after) = cut(b'.', later)?;
    match cut(b'.', after) {
        Some(_) => None,
        None => kill_of(shard, number, after),
    }
}

// The kill that three texts name.
fn kill_of(shard: &[u8], number: &[u8], after: &[u8]) -> Option<Kill>
    ensures value { result ≡ kill_of (shard.now ∷ number.now ∷ after.now ∷ []) }
{
    let shard = small_number_in(shard, 0, LAST_SHARD)?;
    let number = small_number_in(number, 0, 7)?;
    let after = small_number_in(after, 0, 65_536)?;
    Some(Kill {
        shard,
        number,
        after,
    })
}

// Whether one of the kills is of this attempt of this shard.
fn is_killed(kills: &[Kill], shard: u32, number: u32) -> bool
    ensures value { result ≡ is_killed shard number kills.now }
{
    for kill in kills {
        if kill.shard == shard && kill.number == number {
            return true;
        }
    }
    false
}

/// The shards that a list names.
pub fn shards_in(alloc: Global, text: &[u8]) -> Result<Twice, WordsError>
    ensures value { IfOk result (λ shards. shards_in text.now ≡ Some shards) }
    ensures usage { IfErr result (λ e. e ≡ Usage → shards_in text.now ≡ None) }
{
    let mut shards = Items::new(alloc);
    let mut rest = text;
    while let Some((entry, later)) = cut(b',', rest) {
        add_shard(&mut shards, entry)?;
        rest = later;
    }
    add_shard(&mut shards, rest)?;
    Ok(shards)
}

// Adds the shard that an entry names.
fn add_shard(shards: &mut Twice, entry: &[u8]) -> Result<(), WordsError>
    ensures value { OnOk result ((more : List (List ℕ)) → shards_with shards.old (entry.now ∷ more) ≡ shards_with shards.new more) }
    ensures usage { IfErr result (λ e. e ≡ Usage → (more : List (List ℕ)) → shards_with shards.old (entry.now ∷ more) ≡ None) }
{
    let Some(shard) = small_number_in(entry, 0, LAST_SHARD) else {
        return Err(WordsError::Usage);
    };
    if shards.len() >= MOST_ENTRIES || is_among(shards.as_slice(), shard) {
        return Err(WordsError::Usage);
    }
    shards.push(shard)?;
    Ok(())
}

// Whether the shard is one of these.
fn is_among(shards: &[u32], shard: u32) -> bool
    ensures value { result ≡ is_among shard shards.now }
{
    for other in shards {
        if *other == shard {
            return true;
        }
    }
    false
}
