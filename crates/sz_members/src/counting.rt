//! Distinct values, each with how often it came, found by hashing.
ghost use Rattle.std.specs.Prelude.{◌≡◌, ◌<◌, ◌≤◌, ◌+◌, ◌^◌, ◌++◌, ◌∷◌, [], None, length, IsTrue, IsFalse, IsOk, OnOk, OnErr};
ghost use Rattle.indexmap.specs.IndexMap.{get, index_map_len, spare, IsEmpty, IsUnique};
ghost use Rattle.sz_types.specs.SeenTables.{seen_table};
ghost use Rattle.sz_value.specs.Seen.{seen};
ghost use Rattle.sz_members.specs.Repeats.{value_eq, emits_tallied, CountsAgain, AllCame, AreFew, Gains, GainsAll, is_full};

use indexmap::IndexMap;
use std::alloc::Global;
use std::hash::{BuildHasherDefault, DefaultHasher};
use sz_tabs::NoMemory;
use sz_types::{TableDecl, TableKind};
use sz_value::{Value, copy};

/// Distinct values with their repeats. Whoever writes the records picks the values, so they are hashed by a function that forgets nothing
/// before its end.
pub(crate) type Tally = IndexMap<Value, u64, BuildHasherDefault<DefaultHasher>>;

// No values, which takes no memory.
pub(crate) fn new_tally(alloc: Global) -> Tally
    ensures empty { IsEmpty result }
    ensures len { index_map_len result ≡ 0 }
{
    IndexMap::with_hasher(alloc, BuildHasherDefault::new())
}

// Counts the value once more, or keeps a copy of it if it is new, unless it is one too many for a set.
pub(crate) fn hold(
    alloc: Global,
    tally: &mut Tally,
    table: &TableDecl,
    value: &Value,
) -> Result<(), NoMemory>
    requires fits { length (emits_tallied tally.old.entries) < 2 ^ 63 }
    ensures ok { OnOk result (Gains (seen_table table.now) (seen value.now) 1 tally.old.entries tally.new.entries) }
    ensures err { OnErr result (tally.new.entries ≡ tally.old.entries) }
    ensures capacity { index_map_len tally.old + spare tally.old ≤ index_map_len tally.new + spare tally.new }
{
    if count_again(tally, value, 1) || is_full(table, tally) {
        return Ok(());
    }
    let value = copy(alloc, value)?;
    keep(tally, value, 1)
}

// Counts the value as often as the other side did, unless it is one too many for a set. There is room for one more.
fn put(tally: &mut Tally, table: &TableDecl, value: Value, repeats: u64)
    requires fits { length (emits_tallied tally.old.entries) + repeats ≤ 2 ^ 63 }
    requires some { 0 < repeats }
    requires room { 0 < spare tally.old }
    ensures value { Gains (seen_table table.now) (seen value) repeats tally.old.entries tally.new.entries }
    ensures spare { spare tally.old ≤ spare tally.new + 1 }
    ensures capacity { index_map_len tally.old + spare tally.old ≤ index_map_len tally.new + spare tally.new }
{
    if count_again(tally, &value, repeats) || is_full(table, tally) {
        return;
    }
    let _ = keep(tally, value, repeats);
}

// Keeps a value that isn't there yet, with its repeats.
fn keep(tally: &mut Tally, value: Value, repeats: u64) -> Result<(), NoMemory>
    requires absent { get value_eq tally.old value ≡ None }
    ensures ok { OnOk result (tally.new.entries ≡ tally.old.entries ++ (value, repeats) ∷ []) }
    ensures err { OnErr result (tally.new.entries ≡ tally.old.entries) }
    ensures succeeds { 0 < spare tally.old → IsOk result }
    ensures spare { spare tally.old ≤ spare tally.new + 1 }
    ensures capacity { index_map_len tally.old + spare tally.old ≤ index_map_len tally.new + spare tally.new }
{
    tally.insert(value, repeats)?;
    Ok(())
}

// Counts all values of the other side, as often as it did. There is room for them.
pub(crate) fn put_all(tally: &mut Tally, table: &TableDecl, others: Tally)
    requires fits { length (emits_tallied tally.old.entries) + length (emits_tallied others.entries) ≤ 2 ^ 63 }
    requires came { AllCame tally.old.entries }
    requires others { AllCame others.entries }
    requires few { AreFew (seen_table table.now) (length tally.old.entries) }
    requires room { index_map_len others ≤ spare tally.old }
    ensures value { GainsAll (seen_table table.now) others.entries tally.old.entries tally.new.entries }
    ensures capacity { index_map_len tally.old + spare tally.old ≤ index_map_len tally.new + spare tally.new }
{
    for (value, repeats) in others {
        put(tally, table, value, repeats);
    }
}

// Whether the value is there; it then came so many times more.
fn count_again(tally: &mut Tally, value: &Value, more: u64) -> bool
    requires fits { length (emits_tallied tally.old.entries) + more ≤ 2 ^ 63 }
    ensures found { IsTrue result → CountsAgain (seen value.now) more tally.old.entries tally.new.entries }
    ensures absent { IsFalse result → get value_eq tally.old value.now ≡ None }
    ensures kept { IsFalse result → tally.new.entries ≡ tally.old.entries }
    ensures len { index_map_len tally.new ≡ index_map_len tally.old }
    ensures spare { spare tally.new ≡ spare tally.old }
{
    match tally.get_mut(value) {
        Some(repeats) => {
            *repeats += more;
            true
        }
        None => false,
    }
}

// Whether the table is one of sets, and has one value more than its limit.
pub(crate) fn is_full(table: &TableDecl, tally: &Tally) -> bool
    ensures value { result ≡ is_full (seen_table table.now) (length tally.now.entries) }
    ensures unique { IsUnique value_eq tally.now }
{
    let values = tally.len();
    match table.kind {
        TableKind::Set => values > table.limit as usize,
        TableKind::Sum | TableKind::Maximum | TableKind::Minimum | TableKind::Collection => false,
    }
}
