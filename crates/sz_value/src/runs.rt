//! Runs of pairs, which lie one after the other.
ghost use Rattle.std.specs.Prelude.{◌≡◌, ◌+◌, ◌<◌, ◌≤◌, ◌^◌, ◌∷◌, [], length, take, slice_get, option_map, IfOk, IfErr, IfSome, IfNone, OnOk, OnErr, IsOk, IsSome, Some, None};
ghost use Rattle.sz_value.specs.Seen.{seen, seen_pair, seen_pairs, seen_runs};
ghost use Rattle.sz_value.specs.Order.{KeysRise};
ghost use Rattle.sz_value.specs.Maps.{value_at, with_pair};
ghost use Rattle.sz_value.specs.Places.{IsPlaceOf, IsGapFor};
ghost use Rattle.sz_value.specs.Runs.{AreRuns, AreEnds, AreFilled, IsRunFor, head_order};

use crate::NoMemory;
use crate::ordering::order;
use crate::run::{place_of, put_in, replace_in};
use crate::value::{Pair, Run, Value};
use std::cmp::Ordering;

// A run is halved once it has so many pairs and as many as there are runs, so that a new pair moves about the root of all others.
const LONG: usize = 256;

// The pair at a place.
pub(crate) fn pair_at(runs: &[Run], place: usize) -> &Pair
    requires ends { AreEnds 0 runs.now }
    requires within { place < length (seen_runs runs.now) }
    ensures value { slice_get (seen_runs runs.now) place ≡ Some (seen_pair result.now) }
{
    let at = run_at(runs, place);
    &runs[at].pairs[place - count_before(runs, at)]
}

// The run in which a place lies.
fn run_at(runs: &[Run], place: usize) -> usize
    requires ends { AreEnds 0 runs.now }
    requires within { place < length (seen_runs runs.now) }
    ensures within { result < length runs.now }
    ensures low { length (seen_runs (take result runs.now)) ≤ place }
    ensures high { place < length (seen_runs (take (result + 1) runs.now)) }
{
    if runs.len() == 1 {
        return 0;
    }
    runs.partition_point(|run| run.end <= place)
}

// The value at a key, if the key is there.
#[tactic(auto, using(crate::proofs::RunLemmas::none_seen))]
pub(crate) fn value_in<'r>(runs: &'r [Run], key: &Value) -> Option<&'r Value>
    requires runs { AreRuns runs.now }
    ensures value { option_map (λ found. seen found.now) result ≡ value_at (seen key.now) (seen_runs runs.now) }
{
    if runs.is_empty() {
        return None;
    }
    let at = run_for(runs, key);
    let run = &runs[at];
    match place_of(&run.pairs, key) {
        Ok(place) => Some(&run.pairs[place].value),
        Err(_) => None,
    }
}

// The place of a key, if the key is there.
pub(crate) fn place_in(runs: &[Run], key: &Value) -> Option<usize>
    requires runs { AreRuns runs.now }
    requires ends { AreEnds 0 runs.now }
    requires counted { length (seen_runs runs.now) < 2 ^ 64 }
    ensures found { IfSome result (λ place. IsPlaceOf (seen key.now) place (seen_runs runs.now)) }
    ensures none { IfNone result (value_at (seen key.now) (seen_runs runs.now) ≡ None) }
{
    if runs.is_empty() {
        return None;
    }
    let at = run_for(runs, key);
    let run = &runs[at];
    match place_of(&run.pairs, key) {
        Ok(place) => Some(count_before(runs, at) + place),
        Err(_) => None,
    }
}

// How many pairs lie in the runs before a place.
fn count_before(runs: &[Run], at: usize) -> usize
    requires ends { AreEnds 0 (take at runs.now) }
    requires within { at ≤ length runs.now }
    ensures value { result ≡ length (seen_runs (take at runs.now)) }
{
    if at == 0 {
        return 0;
    }
    runs[at - 1].end
}

// The run in which the key lies or would lie: the last one whose first key isn't greater, or else the first.
fn run_for(runs: &[Run], key: &Value) -> usize
    requires some { 0 < length runs.now }
    requires runs { AreRuns runs.now }
    ensures within { result < length runs.now }
    ensures value { IsRunFor (seen key.now) result runs.now }
{
    match runs.binary_search_by(|run| first_against(run, key)) {
        Ok(at) => at,
        Err(after) => after.saturating_sub(1),
    }
}

// How the first key of a run compares with a key.
fn first_against(run: &Run, key: &Value) -> Ordering
    ensures value { result ≡ head_order (seen key.now) run.now.pairs.items }
{
    match run.pairs.first() {
        Some(pair) => order(&pair.key, key),
        None => Ordering::Less,
    }
}

// Puts the value at the key, in the stead of the value there, or as a new pair where there is room for one. Gives the number of
// pairs that are new.
pub(crate) fn put(
    runs: &mut Vec<Run>,
    key: Value,
    value: Value,
    room: usize,
) -> Result<usize, NoMemory>
    requires runs { AreRuns runs.old.items }
    requires ends { AreEnds 0 runs.old.items }
    requires small { length (seen_runs runs.old.items) + room < 2 ^ 64 }
    ensures runs { AreRuns runs.new.items }
    ensures ends { AreEnds 0 runs.new.items }
    ensures ok { OnOk result (seen_runs runs.new.items ≡ with_pair (seen key) (seen value) (seen_runs runs.old.items)) }
    ensures count { IfOk result (λ added. (length (seen_runs runs.new.items) ≡ length (seen_runs runs.old.items) + added) × (added ≤ room)) }
    ensures err { OnErr result (seen_runs runs.new.items ≡ seen_runs runs.old.items) }
    ensures room { IsSome (value_at (seen key) (seen_runs runs.old.items)) → IsOk result }
{
    if runs.is_empty() {
        return begin(runs, Pair { key, value }, room);
    }
    let at = run_for(runs, &key);
    let added = put_in(&mut runs[at].pairs, key, value, room)?;
    settle(runs, at, added);
    Ok(added)
}

// The first run of all, with one pair, where there is room for it.
fn begin(runs: &mut Vec<Run>, pair: Pair, room: usize) -> Result<usize, NoMemory>
    requires none { length runs.old.items ≡ 0 }
    requires runs { AreRuns runs.old.items }
    ensures runs { AreRuns runs.new.items }
    ensures ends { AreEnds 0 runs.new.items }
    ensures ok { OnOk result (seen_runs runs.new.items ≡ seen_pair pair ∷ []) }
    ensures count { IfOk result (λ added. (added ≡ 1) × (added ≤ room)) }
    ensures err { OnErr result (runs.new.items ≡ runs.old.items) }
{
    if room == 0 {
        return Err(NoMemory);
    }
    let mut pairs = Vec::new(*runs.allocator());
    pairs.push(pair)?;
    runs.push(Run { pairs, end: 1 })?;
    Ok(1)
}

// What is left to do for a pair that is new in a run: a long run is halved, and it and all after it end one place later.
fn settle(runs: &mut Vec<Run>, at: usize, added: usize)
    requires within { at < length runs.old.items }
    requires filled { AreFilled runs.old.items }
    requires front { AreEnds 0 (take at runs.old.items) }
    requires none { added ≡ 0 → AreEnds 0 runs.old.items }
    requires small { length (seen_runs runs.old.items) < 2 ^ 64 }
    ensures filled { AreFilled runs.new.items }
    ensures ends { AreEnds 0 runs.new.items }
    ensures same { seen_runs runs.new.items ≡ seen_runs runs.old.items }
{
    if added == 0 {
        return;
    }
    halve(runs, at);
    set_ends(runs, at);
}

// Makes two runs of one that is long. Where there is no memory for them it stays as it is. Their ends are still to be set.
fn halve(runs: &mut Vec<Run>, at: usize)
    requires within { at < length runs.old.items }
    requires filled { AreFilled runs.old.items }
    requires front { AreEnds 0 (take at runs.old.items) }
    ensures filled { AreFilled runs.new.items }
    ensures front { AreEnds 0 (take at runs.new.items) }
    ensures same { seen_runs runs.new.items ≡ seen_runs runs.old.items }
{
    let count = runs[at].pairs.len();
    if count < LONG || count < runs.len() {
        return;
    }
    let none = Run {
        pairs: Vec::new(*runs.allocator()),
        end: 0,
    };
    if runs.insert(at + 1, none).is_err() {
        return;
    }
    match runs[at].pairs.split_off(count / 2) {
        Ok(half) => runs[at + 1].pairs = half,
        Err(_) => {
            runs.remove(at + 1);
        }
    }
}

// Sets the ends of the runs from a place on.
fn set_ends(runs: &mut Vec<Run>, from: usize)
    requires front { AreEnds 0 (take from runs.old.items) }
    requires filled { AreFilled runs.old.items }
    requires small { length (seen_runs runs.old.items) < 2 ^ 64 }
    ensures ends { AreEnds 0 runs.new.items }
    ensures filled { AreFilled runs.new.items }
    ensures same { seen_runs runs.new.items ≡ seen_runs runs.old.items }
{
    for at in from..runs.len() {
        let before = count_before(runs, at);
        let run = &mut runs[at];
        run.end = before + run.pairs.len();
    }
}

// Puts the value in the stead of that at the key, as `Pairs::replace` does.
pub(crate) fn replace(runs: &mut Vec<Run>, key: &Value, value: Value) -> Result<Value, Value>
    requires runs { AreRuns runs.old.items }
    requires ends { AreEnds 0 runs.old.items }
    ensures runs { AreRuns runs.new.items }
    ensures ends { AreEnds 0 runs.new.items }
    ensures ok { OnOk result (seen_runs runs.new.items ≡ with_pair (seen key.now) (seen value) (seen_runs runs.old.items)) }
    ensures count { length (seen_runs runs.new.items) ≡ length (seen_runs runs.old.items) }
    ensures found { IfOk result (λ old. value_at (seen key.now) (seen_runs runs.old.items) ≡ Some (seen old)) }
    ensures err { OnErr result (seen_runs runs.new.items ≡ seen_runs runs.old.items) }
    ensures none { IfErr result (λ given. (given ≡ value) × (value_at (seen key.now) (seen_runs runs.old.items) ≡ None)) }
{
    if runs.is_empty() {
        return Err(value);
    }
    let at = run_for(runs, key);
    replace_in(&mut runs[at].pairs, key, value)
}
