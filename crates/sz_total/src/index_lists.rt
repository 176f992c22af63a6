//! The aggregators of one table, each found by hashing the bytes that spell its index list.
ghost use Rattle.std.specs.Prelude.{◌≡◌, ◌≤◌, ◌+◌, ◌-◌, ◌^◌, [], None, Some, slice_get, true, OnOk, OnErr};
ghost use Rattle.std.specs.Map.{keys_of, lookup};
ghost use Rattle.indexmap.specs.IndexMap.{index_map_len, spare, IsEmpty};
ghost use Rattle.sz_types.specs.SeenTables.{seen_table};
ghost use Rattle.sz_tabs.specs.Fitting.{Fits};
ghost use Rattle.sz_tabs.specs.Rows.{brought_by};
ghost use Rattle.sz_total.specs.Entries.{AreOfTable, TakesEmit, same_indexes};
ghost use Rattle.sz_total.specs.Short.{HasShortParts};
ghost use Rattle.sz_total.specs.Weights.{HasItsWeights};

use crate::aggregate::{Aggregate, add_to, new_aggregate};
use indexmap::IndexMap;
use std::alloc::Global;
use std::hash::{BuildHasherDefault, DefaultHasher};
use sz_flat::FlatList;
use sz_tabs::{Emit, NoMemory};
use sz_types::TableDecl;

/// The aggregator under each index list that something was emitted under. The lists are kept flat. Whoever writes the records picks the
/// indexes, so they are hashed by a function that forgets nothing before its end.
pub(crate) type IndexLists<'a> = IndexMap<
    FlatList,
    Aggregate<'a>,
    BuildHasherDefault<DefaultHasher>,
>;

// No index lists, which takes no memory.
pub(crate) fn no_lists<'a>(alloc: Global) -> IndexLists<'a>
    ensures empty { IsEmpty result }
    ensures len { index_map_len result ≡ 0 }
{
    IndexMap::with_hasher(alloc, BuildHasherDefault::new())
}

// Adds the emit to the aggregator under its index list, which is made if it isn't there. The index list is spelled into the key, whose
// room serves every emit. That of a table without indexes is the first, and needs neither spelling nor hash.
pub(crate) fn take_emit<'a>(
    alloc: Global,
    table: &'a TableDecl,
    lists: &mut IndexLists<'a>,
    key: &mut FlatList,
    emit: &Emit,
) -> Result<(), NoMemory>
    requires weights { HasItsWeights (seen_table table.now) }
    requires fits { Fits (seen_table table.now) (brought_by emit.now) }
    requires short { HasShortParts emit.now }
    requires of_table { AreOfTable (seen_table table.now) (2 ^ 63 - 1) lists.old.entries }
    ensures ok { OnOk result (TakesEmit (seen_table table.now) emit.now lists.old.entries lists.new.entries) }
    ensures err { OnErr result (lists.new.entries ≡ lists.old.entries) }
    ensures capacity { index_map_len lists.old + spare lists.old ≤ index_map_len lists.new + spare lists.new }
{
    if emit.indexes.is_empty() && is_first_without_indexes(lists) {
        let (_, aggregate) = lists.pair_mut(0);
        return add_to(aggregate, &emit.value, emit.weight);
    }
    key.set(&emit.indexes)?;
    take_hashed(alloc, table, lists, key, emit)
}

// Whether the first index list is the empty one.
fn is_first_without_indexes<'a>(lists: &IndexLists<'a>) -> bool
    ensures first { (result ≡ true) → slice_get (keys_of lists.now.entries) 0 ≡ Some [] }
{
    match lists.first() {
        Some((key, _)) => key.is_empty(),
        None => false,
    }
}

// The same, with the aggregator found by hashing the key.
pub(crate) fn take_hashed<'a>(
    alloc: Global,
    table: &'a TableDecl,
    lists: &mut IndexLists<'a>,
    key: &FlatList,
    emit: &Emit,
) -> Result<(), NoMemory>
    requires weights { HasItsWeights (seen_table table.now) }
    requires fits { Fits (seen_table table.now) (brought_by emit.now) }
    requires short { HasShortParts emit.now }
    requires key { key.now ≡ emit.now.indexes }
    requires of_table { AreOfTable (seen_table table.now) (2 ^ 63 - 1) lists.old.entries }
    ensures ok { OnOk result (TakesEmit (seen_table table.now) emit.now lists.old.entries lists.new.entries) }
    ensures err { OnErr result (lists.new.entries ≡ lists.old.entries) }
    ensures capacity { index_map_len lists.old + spare lists.old ≤ index_map_len lists.new + spare lists.new }
{
    match lists.get_mut(key) {
        Some(aggregate) => add_to(aggregate, &emit.value, emit.weight),
        None => put_emit(alloc, table, lists, key, emit),
    }
}

// Puts an aggregator of the emit alone under a copy of the key, which isn't there.
fn put_emit<'a>(
    alloc: Global,
    table: &'a TableDecl,
    lists: &mut IndexLists<'a>,
    key: &FlatList,
    emit: &Emit,
) -> Result<(), NoMemory>
    requires weights { HasItsWeights (seen_table table.now) }
    requires fits { Fits (seen_table table.now) (brought_by emit.now) }
    requires short { HasShortParts emit.now }
    requires key { key.now ≡ emit.now.indexes }
    requires absent { lookup (same_indexes emit.now.indexes) lists.old.entries ≡ None }
    ensures ok { OnOk result (TakesEmit (seen_table table.now) emit.now lists.old.entries lists.new.entries) }
    ensures err { OnErr result (lists.new.entries ≡ lists.old.entries) }
    ensures capacity { index_map_len lists.old + spare lists.old ≤ index_map_len lists.new + spare lists.new }
{
    let mut aggregate = new_aggregate(alloc, table)?;
    add_to(&mut aggregate, &emit.value, emit.weight)?;
    let key = key.copied(alloc)?;
    lists.insert(key, aggregate)?;
    Ok(())
}
