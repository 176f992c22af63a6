//! One run of pairs, in ascending order of their keys.
ghost use Rattle.std.specs.Prelude.{◌≡◌, ◌+◌, ◌≤◌, [], length, IfOk, IfErr, OnOk, OnErr, IsOk, IsSome, Some, None};
ghost use Rattle.std.specs.List.Sorted.{IsSearchInRange};
ghost use Rattle.sz_value.specs.Seen.{seen, seen_pairs};
ghost use Rattle.sz_value.specs.Order.{KeysRise};
ghost use Rattle.sz_value.specs.Maps.{value_at, with_pair};
ghost use Rattle.sz_value.specs.Places.{IsPlaceOf, IsGapFor};

use crate::NoMemory;
use crate::ordering::order;
use crate::value::{Pair, Value};
use std::mem;

// Where the key is, or where it would go, by halving.
pub(crate) fn place_of(pairs: &[Pair], key: &Value) -> Result<usize, usize>
    requires rising { KeysRise (seen_pairs pairs.now) }
    ensures within { IsSearchInRange result (length pairs.now) }
    ensures found { IfOk result (λ place. IsPlaceOf (seen key.now) place (seen_pairs pairs.now)) }
    ensures none { IfErr result (λ place. IsGapFor (seen key.now) place (seen_pairs pairs.now)) }
{
    pairs.binary_search_by(|pair| order(&pair.key, key))
}

// Puts the value at the key, in the stead of the value there, or as a new pair where there is room for one. Gives the number of
// pairs that are new.
pub(crate) fn put_in(
    pairs: &mut Vec<Pair>,
    key: Value,
    value: Value,
    room: usize,
) -> Result<usize, NoMemory>
    requires rising { KeysRise (seen_pairs pairs.old.items) }
    ensures rising { KeysRise (seen_pairs pairs.new.items) }
    ensures ok { OnOk result (seen_pairs pairs.new.items ≡ with_pair (seen key) (seen value) (seen_pairs pairs.old.items)) }
    ensures count { IfOk result (λ added. (length pairs.new.items ≡ length pairs.old.items + added) × (added ≤ room)) }
    ensures err { OnErr result (pairs.new.items ≡ pairs.old.items) }
    ensures room { IsSome (value_at (seen key) (seen_pairs pairs.old.items)) → IsOk result }
{
    match place_of(pairs, &key) {
        Ok(place) => {
            pairs[place] = Pair { key, value };
            Ok(0)
        }
        Err(place) => {
            if room == 0 {
                return Err(NoMemory);
            }
            pairs.insert(place, Pair { key, value })?;
            Ok(1)
        }
    }
}

// Puts the value in the stead of that at the key, and gives that one back, or else the value itself.
pub(crate) fn replace_in(pairs: &mut Vec<Pair>, key: &Value, value: Value) -> Result<Value, Value>
    requires rising { KeysRise (seen_pairs pairs.old.items) }
    ensures rising { KeysRise (seen_pairs pairs.new.items) }
    ensures ok { OnOk result (seen_pairs pairs.new.items ≡ with_pair (seen key.now) (seen value) (seen_pairs pairs.old.items)) }
    ensures count { length pairs.new.items ≡ length pairs.old.items }
    ensures found { IfOk result (λ old. value_at (seen key.now) (seen_pairs pairs.old.items) ≡ Some (seen old)) }
    ensures err { OnErr result (pairs.new.items ≡ pairs.old.items) }
    ensures none { IfErr result (λ given. (given ≡ value) × (value_at (seen key.now) (seen_pairs pairs.old.items) ≡ None)) }
{
    match place_of(pairs, key) {
        Ok(place) => Ok(mem::replace(&mut pairs[place].value, value)),
        Err(_) => Err(value),
    }
}
