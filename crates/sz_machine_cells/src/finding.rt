//! At which place among the parts of a value an index or a key leads.
ghost use Rattle.std.specs.Prelude.{◌≡◌, pos, IfOk, IfSome};
ghost use Rattle.sz_value.specs.Data.{mapping, entries_of};
ghost use Rattle.sz_builtin.specs.Places.{index};
ghost use Rattle.sz_builtin.specs.Views.{seen_view};
ghost use Rattle.sz_machine_cells.specs.Nested.{nth};

use std::alloc::Global;
use sz_builtin::{Kind, View};
use sz_value::{NoMemory, Pairs};

/// The place among the parts of a value to which an index or a key leads, if the value has such parts. There may be no part at the
/// place of an index.
pub(crate) fn place_in(
    alloc: Global,
    base: &View<'_>,
    at: &View<'_>,
) -> Result<Option<usize>, NoMemory>
    ensures value { IfOk result (λ place. IfSome place (λ n. nth n (seen_view base.now) ≡ index (seen_view base.now) (seen_view at.now))) }
{
    match (base.kind(), at.kind()) {
        (Kind::Array(_), Kind::Int(n)) => Ok(from_front(n)),
        (Kind::Map(pairs), _) => place_of_key(alloc, pairs, at),
        _ => Ok(None),
    }
}

// The index as a place, if it isn't below 0.
fn from_front(n: i64) -> Option<usize>
    ensures value { IfSome result (λ place. n ≡ pos place) }
{
    if n < 0 { None } else { Some(n as usize) }
}

// The place of the pair with this key, if there is one.
#[tactic(auto, using(sz_builtin::proofs::Parts::pairs_back, crate::proofs::NestedLemmas::key_there))]
fn place_of_key(alloc: Global, pairs: &Pairs, key: &View<'_>) -> Result<Option<usize>, NoMemory>
    ensures value { IfOk result (λ place. IfSome place (λ n.
        nth n (mapping (entries_of pairs.now)) ≡ index (mapping (entries_of pairs.now)) (seen_view key.now))) }
{
    let key = key.lent(alloc)?;
    Ok(pairs.place_of(key.value()))
}
