//! Maps of operands, which are weighed before anything is copied.
ghost use Rattle.std.specs.Prelude.{◌≡◌, ◌+◌, ◌<◌, ◌≤◌, [], nat_le, reverse, IfOk, IfSome, IfNone};
ghost use Rattle.sz_value.specs.Data.{mapping, entries_of, bytes, str};
ghost use Rattle.sz_value.specs.Order.{compare, KeysRise};
ghost use Rattle.sz_value.specs.Seen.{seen};
ghost use Rattle.sz_value.specs.Maps.{with_pairs};
ghost use Rattle.sz_value.specs.Weight.{weight_of};
ghost use Rattle.sz_builtin.specs.Views.{seen_view};
ghost use Rattle.sz_world_rules.specs.Operations.{map_of};
ghost use Rattle.sz_world_rules.specs.Ticks.{result_weight};
ghost use Rattle.sz_machine_cells.specs.Results.{by_turns, defined_of};
ghost use Rattle.sz_machine_cells.specs.PairViews.{seen_pair_views, pairs_weight, is_followed, last_ones, DontFall};

use crate::cell::Cell;
use crate::operands::all_defined;
use crate::weights::view_weight;
use std::alloc::Global;
use std::cmp::Ordering;
use sz_builtin::View;
use sz_value::{NoMemory, Pair, Pairs, Value, order};

/// A key and its value, to look at where they stand.
#[derive(Clone, Copy)]
pub struct PairView<'c> {
    pub key: View<'c>,
    pub value: View<'c>,
}

/// The map of keys and values, which stand by turns, if it weighs no more than `most`. Where one of them is undefined, so is the map. Only
/// what is in the map is copied: of equal keys the last one with its value.
pub(crate) fn map_within<'a>(
    alloc: Global,
    cells: &[Cell<'_>],
    most: u64,
) -> Result<Option<Cell<'a>>, NoMemory>
    ensures some { IfOk result (λ made. IfSome made (λ cell. (cell ≡ map_of cells.now) × (result_weight (map_of cells.now) ≤ most))) }
    ensures none { IfOk result (λ made. IfNone made (most < result_weight (map_of cells.now))) }
{
    if !all_defined(cells) {
        return Ok(Some(Cell::undefined()));
    }
    let pairs = sorted(pair_views(alloc, cells)?)?;
    let kept = last_ones(alloc, &pairs)?;
    if !is_within(&kept, most) {
        return Ok(None);
    }
    Ok(Some(Cell::of_value(alloc, Value::Map(copied(alloc, &kept)?))?))
}

// The pairs of keys and values that stand by turns.
fn pair_views<'c>(alloc: Global, cells: &'c [Cell<'_>]) -> Result<Vec<PairView<'c>>, NoMemory>
    ensures value { IfOk result (λ pairs. seen_pair_views pairs.items ≡ by_turns (defined_of cells.now)) }
{
    let mut pairs = Vec::with_capacity(alloc, cells.len() / 2)?;
    let mut waiting: Option<View<'c>> = None;
    for cell in cells {
        let Some(view) = cell.view() else {
            continue;
        };
        match waiting.take() {
            Some(key) => pairs.push(PairView { key, value: view })?,
            None => waiting = Some(view),
        }
    }
    Ok(pairs)
}

// The pairs in ascending order of their keys, those of one key in the order in which they came.
fn sorted(mut pairs: Vec<PairView<'_>>) -> Result<Vec<PairView<'_>>, NoMemory>
    ensures value { IfOk result (λ sorted. with_pairs [] (seen_pair_views sorted.items) ≡ with_pairs [] (seen_pair_views pairs.entry.items)) }
    ensures rest { IfOk result (λ sorted. DontFall (seen_pair_views sorted.items)) }
{
    pairs.sort_by(|one, two| order_of_views(&one.key, &two.key))?;
    Ok(pairs)
}

// The pairs of a map, of pairs whose keys don't fall: of equal keys the last one.
#[tactic(auto, using(crate::proofs::PairLemmas::keeps_one))]
fn last_ones<'c>(alloc: Global, pairs: &[PairView<'c>]) -> Result<Vec<PairView<'c>>, NoMemory>
    ensures value { IfOk result (λ kept. seen_pair_views kept.items ≡ last_ones (seen_pair_views pairs.now)) }
{
    let mut kept = Vec::with_capacity(alloc, pairs.len())?;
    for i in 0..pairs.len() {
        if is_followed(&pairs[i..]) {
            continue;
        }
        kept.push(pairs[i])?;
    }
    Ok(kept)
}

// Whether the second pair has the key of the first.
fn is_followed(pairs: &[PairView<'_>]) -> bool
    ensures value { result ≡ is_followed (seen_pair_views pairs.now) }
{
    match pairs {
        [one, two, ..] => order_of_views(&one.key, &two.key).is_eq(),
        _ => false,
    }
}

// Whether a map of these pairs weighs no more than `most`. A weight stays at 2^64 - 1.
#[tactic(auto, using(crate::proofs::PairLemmas::pairs_fit, crate::proofs::PairLemmas::pairs_pass, crate::proofs::PairLemmas::all_fit))]
fn is_within(pairs: &[PairView<'_>], most: u64) -> bool
    ensures value { result ≡ nat_le (weight_of (mapping (entries_of (seen_pair_views pairs.now)))) most }
{
    match sum_within(pairs, 1, most) {
        Some(_) => true,
        None => most == u64::MAX,
    }
}

// A number and what the pairs weigh, if that is no more than `most`. Nothing is weighed once it is more.
fn sum_within(pairs: &[PairView<'_>], first: u64, most: u64) -> Option<u64>
    ensures some { IfSome result (λ sum. (sum ≡ first + pairs_weight (seen_pair_views pairs.now)) × (sum ≤ most)) }
    ensures none { IfNone result (most < first + pairs_weight (seen_pair_views pairs.now)) }
{
    let mut sum = first;
    for pair in pairs {
        if sum > most {
            return None;
        }
        sum = sum
            .checked_add(view_weight(&pair.key))?
            .checked_add(view_weight(&pair.value))?;
    }
    if sum > most { None } else { Some(sum) }
}

// Copies of pairs whose keys rise.
#[tactic(auto, using(crate::proofs::PairLemmas::one_copied))]
fn copied(alloc: Global, pairs: &[PairView<'_>]) -> Result<Pairs, NoMemory>
    requires rising { KeysRise (seen_pair_views pairs.now) }
    ensures value { IfOk result (λ made. made ≡ seen_pair_views pairs.now) }
{
    let mut made = Vec::with_capacity(alloc, pairs.len())?;
    for pair in pairs {
        let key = pair.key.owned(alloc)?;
        let value = pair.value.owned(alloc)?;
        made.push(Pair { key, value })?;
    }
    Pairs::from_rising(alloc, made)
}

// How two values stand in the order of values. Nothing is copied for that.
fn order_of_views(a: &View<'_>, b: &View<'_>) -> Ordering
    ensures value { result ≡ compare (seen_view a.now) (seen_view b.now) }
{
    match a {
        View::Bool(truth) => order_to(&Value::Bool(*truth), b),
        View::Int(number) => order_to(&Value::Int(*number), b),
        View::Time(number) => order_to(&Value::Time(*number), b),
        View::Ascii(text) => order_of_text(text.octets, b),
        View::Bytes(octets) => order_of_bytes(octets, b),
        View::Whole(value) => order_to(value, b),
    }
}

// The same of a value at hand and another one.
fn order_to(a: &Value, b: &View<'_>) -> Ordering
    ensures value { result ≡ compare (seen a.now) (seen_view b.now) }
{
    match b {
        View::Bool(truth) => order(a, &Value::Bool(*truth)),
        View::Int(number) => order(a, &Value::Int(*number)),
        View::Time(number) => order(a, &Value::Time(*number)),
        View::Ascii(text) => order_to_text(a, text.octets),
        View::Bytes(octets) => order_to_bytes(a, octets),
        View::Whole(value) => order(a, value),
    }
}

// The same of bytes and another value.
#[tactic(auto, using(crate::proofs::PairLemmas::turned))]
fn order_of_bytes(octets: &[u8], b: &View<'_>) -> Ordering
    ensures value { result ≡ compare (bytes octets.now) (seen_view b.now) }
{
    match b {
        View::Bool(_) | View::Int(_) | View::Time(_) | View::Ascii(_) => Ordering::Greater,
        View::Bytes(others) => octets.cmp(others),
        View::Whole(value) => order_to_bytes(value, octets).reverse(),
    }
}

// The same of a value and bytes.
fn order_to_bytes(a: &Value, octets: &[u8]) -> Ordering
    ensures value { result ≡ compare (seen a.now) (bytes octets.now) }
{
    match a {
        Value::Bool(_) | Value::Int(_) | Value::Time(_) | Value::Str(_) => Ordering::Less,
        Value::Bytes(own) => own.as_slice().cmp(octets),
        Value::Array(_) | Value::Tuple(_) | Value::Map(_) => Ordering::Greater,
    }
}

// The same of a text of ASCII and another value.
#[tactic(auto, using(crate::proofs::PairLemmas::turned))]
fn order_of_text(text: &[u8], b: &View<'_>) -> Ordering
    ensures value { result ≡ compare (str text.now) (seen_view b.now) }
{
    match b {
        View::Bool(_) | View::Int(_) | View::Time(_) => Ordering::Greater,
        View::Ascii(other) => text.cmp(other.octets),
        View::Bytes(_) => Ordering::Less,
        View::Whole(value) => order_to_text(value, text).reverse(),
    }
}

// The same of a value and a text of ASCII.
fn order_to_text(a: &Value, text: &[u8]) -> Ordering
    ensures value { result ≡ compare (seen a.now) (str text.now) }
{
    match a {
        Value::Bool(_) | Value::Int(_) | Value::Time(_) => Ordering::Less,
        Value::Str(own) => own.as_str().as_bytes().cmp(text),
        Value::Bytes(_) | Value::Array(_) | Value::Tuple(_) | Value::Map(_) => Ordering::Greater,
    }
}
