//! Keys of a map that is shared as it was.
ghost use Rattle.std.specs.Prelude.{◌≡◌, ◌∷◌, [], ◌<◌, ◌^◌, ◌+◌, ◌==◌, length, map, reverse, drop, slice_get, option_map, IfOk, IfSome, IfNone, OnErr, Some};
ghost use Rattle.std.specs.Map.{keys_of};
ghost use Rattle.sz_value.specs.Seen.{seen};
ghost use Rattle.sz_builtin.specs.Views.{seen_view};
ghost use Rattle.sz_machine_cells.specs.MapKeys.{keys_in};

use crate::cell::{Cell, Form};
use std::alloc::Global;
use std::marker::Model;
use sz_builtin::{Kind, View};
use sz_value::{NoMemory, Pairs, Value, copy};

/// A map, which is shared, and the place of the next of its keys.
///
/// Contracts see the list of the keys that are left, the next one first.
pub struct MapKeys<'a> {
    base: Cell<'a>,
    next: usize,
}

impl<'a> Drop for MapKeys<'a> {
    fn drop(self) {
        let MapKeys { base: _, next: _ } = self;
    }
}

impl<'a> Model for MapKeys<'a> {
    ghost use Rattle.std.specs.Prelude.{List, drop};
    ghost use Rattle.sz_value.specs.Data.{Datum};
    ghost use Rattle.sz_value.specs.Code.{parts_code};

    ghost Value = { List Datum };

    ghost coded = { parts_code };

    ghost use Rattle.sz_machine_cells.specs.MapKeys.{keys_in};

    ghost view = { λ keys. drop keys.next (keys_in keys.base) };
}

impl<'a> MapKeys<'a> {
    /// All keys of a map. Anything else has none.
    pub(crate) fn of(base: &Cell<'a>) -> Result<MapKeys<'a>, NoMemory>
        ensures value { IfOk result (λ made. made ≡ keys_in base.now) }
    {
        Ok(MapKeys {
            base: base.copy()?,
            next: 0,
        })
    }

    /// Whether no key is left.
    #[tactic(auto, using(crate::proofs::CandidateLemmas::none_after))]
    pub(crate) fn is_empty(&self) -> bool
        ensures value { result ≡ (length self.now == 0) }
    {
        count_of(&self.base) <= self.next
    }

    /// A copy of the next key, if one is left.
    #[tactic(auto, using(crate::proofs::CandidateLemmas::key_after, crate::proofs::CandidateLemmas::no_key_after))]
    pub(crate) fn next(&mut self, alloc: Global) -> Result<Option<Value>, NoMemory>
        ensures some { IfOk result (λ found. IfSome found (λ key. self.old ≡ seen key ∷ self.new)) }
        ensures none { IfOk result (λ found. IfNone found ((self.old ≡ []) × (self.new ≡ []))) }
        ensures err { OnErr result (self.new ≡ self.old) }
    {
        match key_at(alloc, &self.base, self.next)? {
            Some(key) => {
                self.next += 1;
                Ok(Some(key))
            }
            None => Ok(None),
        }
    }

    /// Copies of the keys that are left, the next one last, so that the map need not be shared: none where it stays with its
    /// owner, and isn't.
    pub(crate) fn apart(&self, alloc: Global) -> Result<Option<Vec<Value>>, NoMemory>
        ensures value { IfOk result (λ made. IfSome made (λ keys. reverse (map seen keys.items) ≡ self.now)) }
    {
        match &self.base.form {
            Form::Lent(_) => Ok(None),
            _ => Ok(Some(keys_after(alloc, &self.base, self.next)?)),
        }
    }
}

// How many keys a map has.
fn count_of(base: &Cell<'_>) -> usize
    ensures value { result ≡ length (keys_in base.now) }
{
    match base.view() {
        Some(view) => count_in(&view),
        None => 0,
    }
}

// The same, of a map to look at.
#[tactic(auto, using(sz_builtin::proofs::Parts::pairs_back, crate::proofs::CandidateLemmas::keys_count))]
fn count_in(base: &View<'_>) -> usize
    ensures value { result ≡ length (keys_in (Some (seen_view base.now))) }
{
    match base.kind() {
        Kind::Map(pairs) => pairs.len(),
        _ => 0,
    }
}

// A copy of the key at a place of a map, if there is one.
fn key_at(alloc: Global, base: &Cell<'_>, n: usize) -> Result<Option<Value>, NoMemory>
    ensures value { IfOk result (λ key. option_map seen key ≡ slice_get (keys_in base.now) n) }
    ensures small { IfOk result (λ key. IfSome key (λ _. n < 2 ^ 63)) }
{
    match base.view() {
        Some(view) => key_in(alloc, &view, n),
        None => Ok(None),
    }
}

// The same, of a map to look at.
#[tactic(auto, using(sz_builtin::proofs::Parts::pairs_back))]
fn key_in(alloc: Global, base: &View<'_>, n: usize) -> Result<Option<Value>, NoMemory>
    ensures value { IfOk result (λ key. option_map seen key ≡ slice_get (keys_in (Some (seen_view base.now))) n) }
    ensures small { IfOk result (λ key. IfSome key (λ _. n < 2 ^ 63)) }
{
    match base.kind() {
        Kind::Map(pairs) => nth_key(alloc, pairs, n),
        _ => Ok(None),
    }
}

// The same, of pairs.
#[tactic(auto, using(crate::proofs::CandidateLemmas::key_nth))]
fn nth_key(alloc: Global, pairs: &Pairs, n: usize) -> Result<Option<Value>, NoMemory>
    ensures value { IfOk result (λ key. option_map seen key ≡ slice_get (keys_of pairs.now) n) }
    ensures small { IfOk result (λ key. IfSome key (λ _. n < 2 ^ 63)) }
{
    match nth_lent(pairs, n) {
        Some(key) => Ok(Some(copy(alloc, key)?)),
        None => Ok(None),
    }
}

// The key at a place of pairs.
fn nth_lent(pairs: &Pairs, n: usize) -> Option<&Value>
    ensures value { option_map (λ key. seen key.now) result ≡ option_map (λ p. p.0) (slice_get pairs.now n) }
    ensures small { IfSome result (λ _. n < 2 ^ 63) }
{
    if n < pairs.len() {
        Some(&pairs.pair(n).key)
    } else {
        None
    }
}

// Copies of the keys of a map from a place on, the first one last.
fn keys_after(alloc: Global, base: &Cell<'_>, n: usize) -> Result<Vec<Value>, NoMemory>
    ensures value { IfOk result (λ made. reverse (map seen made.items) ≡ drop n (keys_in base.now)) }
{
    match base.view() {
        Some(view) => view_keys(alloc, &view, n),
        None => Ok(Vec::new(alloc)),
    }
}

// The same, of a map to look at.
#[tactic(auto, using(sz_builtin::proofs::Parts::pairs_back))]
fn view_keys(alloc: Global, base: &View<'_>, n: usize) -> Result<Vec<Value>, NoMemory>
    ensures value { IfOk result (λ made. reverse (map seen made.items) ≡ drop n (keys_in (Some (seen_view base.now)))) }
{
    match base.kind() {
        Kind::Map(pairs) => pair_keys(alloc, pairs, n),
        _ => Ok(Vec::new(alloc)),
    }
}

// The same, of pairs.
#[tactic(auto, using(crate::proofs::CandidateLemmas::key_copied, crate::proofs::CandidateLemmas::all_copied))]
fn pair_keys(alloc: Global, pairs: &Pairs, n: usize) -> Result<Vec<Value>, NoMemory>
    ensures value { IfOk result (λ made. reverse (map seen made.items) ≡ drop n (keys_of pairs.now)) }
{
    let mut keys = Vec::with_capacity(alloc, pairs.len().saturating_sub(n))?;
    for place in n..pairs.len() {
        keys.push(copy(alloc, &pairs.pair(place).key)?)?;
    }
    keys.reverse();
    Ok(keys)
}
