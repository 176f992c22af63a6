//! Candidate lists of quantified variables.
ghost use Rattle.std.specs.Prelude.{◌≡◌, ◌∷◌, [], ◌<◌, ◌^◌, ◌==◌, length, IfOk, IfSome, IfNone, OnErr, Some};
ghost use Rattle.sz_value.specs.Seen.{seen};
ghost use Rattle.sz_builtin.specs.Views.{seen_view};
ghost use Rattle.sz_world_rules.specs.Candidates.{candidates};
ghost use Rattle.sz_machine_cells.specs.Candidates.{numbers_of};

use crate::cell::Cell;
use crate::map_keys::MapKeys;
use std::alloc::Global;
use std::marker::Model;
use sz_builtin::{Kind, View, letters_count};
use sz_value::{List, NoMemory, Value};

/// The candidates that are left: whole numbers up to a bound, or keys. A map whose keys they are is shared as it was at the start, and
/// a key is copied when it is asked for.
///
/// Contracts see the list of them, the next one first.
pub struct Candidates<'a> {
    left: Left<'a>,
}

impl<'a> Drop for Candidates<'a> {
    fn drop(self) {
        let Candidates { left: _ } = self;
    }
}

/// What is left of the candidates, by what they are.
#[derive(Drop)]
pub enum Left<'a> {
    // The next number, and how many are left.
    Numbers(u64, u64),
    // The keys of a map that are left, in the map.
    KeysOf(MapKeys<'a>),
    // Keys, the next one last.
    Keys(Vec<Value>),
}

impl<'a> Model for Candidates<'a> {
    ghost use Rattle.std.specs.Prelude.{List};
    ghost use Rattle.sz_value.specs.Data.{Datum};
    ghost use Rattle.sz_value.specs.Code.{parts_code};

    ghost Value = { List Datum };

    ghost coded = { parts_code };

    ghost use Rattle.sz_machine_cells.specs.Candidates.{candidates_left, AreNumbers};

    ghost view = { λ c. candidates_left c.left };

    ghost invariant = { λ c. AreNumbers c.left };
}

impl<'a> Candidates<'a> {
    /// The candidates that a base gives: for a bound of a slice where `slice` is true, else for an index or a key.
    pub fn of(slice: bool, base: &Cell<'a>) -> Result<Candidates<'a>, NoMemory>
        ensures value { IfOk result (λ made. made ≡ candidates slice base.now) }
    {
        match base.view() {
            Some(view) => Candidates::of_view(slice, base, &view),
            None => Ok(Candidates::none()),
        }
    }

    // The candidates that a base gives, with the value that it is.
    #[tactic(auto, using(crate::proofs::CandidateLemmas::of_array))]
    fn of_view(slice: bool, base: &Cell<'a>, view: &View<'_>) -> Result<Candidates<'a>, NoMemory>
        requires same { base.now ≡ Some (seen_view view.now) }
        ensures value { IfOk result (λ made. made ≡ candidates slice base.now) }
    {
        match view.kind() {
            Kind::Array(list) => Ok(numbers(slice, list_len(list))),
            Kind::Str(text) => Ok(numbers(slice, letters_count(&text))),
            Kind::Bytes(contents) => Ok(numbers(slice, contents.len())),
            Kind::Map(_) if !slice => Ok(Candidates {
                left: Left::KeysOf(MapKeys::of(base)?),
            }),
            _ => Ok(Candidates::none()),
        }
    }

    // No candidates.
    fn none() -> Candidates<'a>
        ensures value { result ≡ [] }
    {
        Candidates {
            left: Left::Numbers(0, 0),
        }
    }

    /// Whether no candidate is left.
    pub fn is_empty(&self) -> bool
        ensures value { result ≡ (length self.now == 0) }
    {
        match &self.left {
            Left::Numbers(_, count) => *count == 0,
            Left::KeysOf(keys) => keys.is_empty(),
            Left::Keys(keys) => keys.is_empty(),
        }
    }

    /// The next candidate, if one is left.
    #[tactic(auto, using(crate::proofs::ListLemmas::key_next, crate::proofs::CandidateLemmas::number_next))]
    pub fn next(&mut self, alloc: Global) -> Result<Option<Value>, NoMemory>
        ensures some { IfOk result (λ found. IfSome found (λ value. self.old ≡ seen value ∷ self.new)) }
        ensures none { IfOk result (λ found. IfNone found ((self.old ≡ []) × (self.new ≡ []))) }
        ensures err { OnErr result (self.new ≡ self.old) }
    {
        match &mut self.left {
            Left::Numbers(next, count) => {
                if *count == 0 {
                    return Ok(None);
                }
                let number = *next;
                *next += 1;
                *count -= 1;
                Ok(Some(Value::Int(number as i64)))
            }
            Left::KeysOf(keys) => keys.next(alloc),
            Left::Keys(keys) => Ok(keys.pop()),
        }
    }

    /// Shares no map with a local from then on, so that one can be changed in place: the keys that are left are copied.
    pub fn set_apart(&mut self, alloc: Global) -> Result<(), NoMemory>
        ensures value { self.new ≡ self.old }
    {
        let Left::KeysOf(keys) = &self.left else {
            return Ok(());
        };
        if let Some(keys) = keys.apart(alloc)? {
            self.left = Left::Keys(keys);
        }
        Ok(())
    }
}

// The indexes below a length, or the bounds of slices up to it.
fn numbers<'a>(slice: bool, len: usize) -> Candidates<'a>
    requires small { len < 2 ^ 63 }
    ensures value { result ≡ numbers_of slice len }
{
    let count = if slice { len as u64 + 1 } else { len as u64 };
    Candidates {
        left: Left::Numbers(0, count),
    }
}

// The number of elements.
fn list_len(list: &List) -> usize
    ensures value { result ≡ length list.now }
    ensures small { result < 2 ^ 63 }
{
    list.as_slice().len()
}
