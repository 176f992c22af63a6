//! The index lists of a table in value order, each lent with its aggregator.
ghost use Rattle.std.specs.List.{IsDistinct};
ghost use Rattle.std.specs.Map.{keys_of};
ghost use Rattle.std.specs.Prelude.{◌≡◌, ◌<◌, ◌≤◌, ◌++◌, length, map, slice_get, Some, IfOk, OnOk, IsPermutation};
ghost use Rattle.sz_tabs.specs.Rows.{compare_indexes};
ghost use Rattle.sz_total.specs.Aggregates.{IsBounded};
ghost use Rattle.sz_total.specs.Entries.{AreBounded, SortsAll, entry_rows, rows_in_order, same_indexes};
ghost use Rattle.sz_total.specs.Parts.{ArePlaced, entries_of};

use crate::aggregate::{Aggregate, rows_shown};
use crate::indexed::{IndexedRows, TableRows};
use crate::part::Part;
use std::alloc::Global;
use std::cmp::Ordering;
use std::marker::Model;
use std::thread;
use std::thread::Threads;
use sz_flat::RankedList;
use sz_tabs::NoMemory;

// Fewer index lists are no work for threads: to start one takes as long as to sort hundreds.
const FEWEST_FOR_THREADS: usize = 4096;

/// An index list of a table, lent with its aggregator. Its rank stands in the entry, so that a sort of many entries seldom goes to the
/// index lists, which lie anywhere. Contracts see the index list as plain data.
#[derive(Drop)]
struct Entry<'t, 'a> {
    key: RankedList<'t>,
    aggregate: &'t Aggregate<'a>,
}

impl<'t, 'a> Model for Entry<'t, 'a> {
    ghost use Rattle.sz_value.specs.Data.{Datum};
    ghost use Rattle.sz_value.specs.Code.{parts_code};
    ghost use Rattle.std.specs.Prelude.{List};
    ghost use Rattle.std.specs.Coded.{coded×};
    ghost use Rattle.sz_total.specs.Code.{aggregate_code};
    ghost use Rattle.sz_total.specs.declared.aggregate.Aggregate as aggregates;

    ghost Value = { List Datum × aggregates.Aggregate };

    ghost coded = { coded× parts_code aggregate_code };

    ghost view = { λ e. (e.key, e.aggregate.now) };
}

impl<'t, 'a> Entry<'t, 'a> {
    // How its index list compares with that of another entry.
    fn order(&self, other: &Entry<'t, 'a>) -> Ordering
        ensures value { result ≡ compare_indexes self.now.0 other.now.0 }
    {
        self.key.order(&other.key)
    }

    // Its index list, read back, with the rows of its aggregator.
    fn rows(&self, alloc: Global) -> Result<IndexedRows, NoMemory>
        ensures value { IfOk result (λ rows. rows ≡ entry_rows self.now) }
        ensures bounded { OnOk result (IsBounded self.now.1) }
    {
        let indexes = self.key.list().values(alloc)?;
        let rows = rows_shown(self.aggregate)?;
        Ok(IndexedRows { indexes, rows })
    }
}

/// The rows of a table, with the index lists in value order, which are lent: the rows under one of them are made when they are asked
/// for, so that nobody has to hold those under all. Places are counted from 0.
///
/// Contracts see the list of all rows.
pub struct RowsInOrder<'t, 'a> {
    entries: Vec<Entry<'t, 'a>>,
}

impl<'t, 'a> Drop for RowsInOrder<'t, 'a> {
    fn drop(self) {
        let RowsInOrder { entries: _ } = self;
    }
}

impl<'t, 'a> Model for RowsInOrder<'t, 'a> {
    ghost use Rattle.std.specs.Prelude.{List, map};
    ghost use Rattle.std.specs.Coded.{coded_list};
    ghost use Rattle.sz_total.specs.Tables.{Indexed};
    ghost use Rattle.sz_total.specs.Code.{indexed_code};
    ghost use Rattle.sz_total.specs.Entries.{entry_rows};

    ghost Value = { List Indexed };

    ghost coded = { coded_list indexed_code };

    ghost view = { λ r. map entry_rows r.entries.items };
}

impl<'t, 'a> RowsInOrder<'t, 'a> {
    // The index lists of a table, in value order.
    pub(crate) fn new(
        alloc: Global,
        parts: &'t Vec<Part<'a>>,
    ) -> Result<RowsInOrder<'t, 'a>, NoMemory>
        requires placed { ArePlaced parts.now.items }
        ensures value { IfOk result (λ rows. rows ≡ rows_in_order (entries_of parts.now.items)) }
    {
        let entries = entries_in_order(alloc, parts)?;
        Ok(RowsInOrder { entries })
    }

    // The same, put in order by at most so many threads.
    pub(crate) fn new_by<R: Threads + Sync>(
        rt: &R,
        threads: usize,
        alloc: Global,
        parts: &'t Vec<Part<'a>>,
    ) -> Result<RowsInOrder<'t, 'a>, NoMemory>
        requires threads { 1 ≤ threads }
        requires placed { ArePlaced parts.now.items }
        ensures value { IfOk result (λ rows. rows ≡ rows_in_order (entries_of parts.now.items)) }
    {
        let entries = entries_in_order_by(rt, threads, alloc, parts)?;
        Ok(RowsInOrder { entries })
    }

    /// The number of index lists.
    pub fn len(&self) -> usize
        ensures value { result ≡ length self.now }
    {
        self.entries.len()
    }

    /// The index list at a place, with the rows under it.
    pub fn rows(&self, alloc: Global, place: usize) -> Result<IndexedRows, NoMemory>
        requires within { place < length self.now }
        ensures value { IfOk result (λ rows. slice_get self.now place ≡ Some rows) }
    {
        self.entries[place].rows(alloc)
    }
}

// The rows under each index list, these in value order.
#[tactic(auto, using(crate::proofs::ReadLemmas::all_bounded))]
pub(crate) fn all_rows<'a>(alloc: Global, parts: &Vec<Part<'a>>) -> Result<TableRows, NoMemory>
    requires placed { ArePlaced parts.now.items }
    ensures value { IfOk result (λ rows. rows ≡ rows_in_order (entries_of parts.now.items)) }
    ensures bounded { OnOk result (AreBounded (entries_of parts.now.items)) }
{
    let entries = entries_in_order(alloc, parts)?;
    let mut all = TableRows::with_capacity(alloc, entries.len())?;
    for entry in &entries {
        all.push(entry.rows(alloc)?)?;
    }
    Ok(all)
}

// The index lists with their aggregators, in value order.
fn entries_in_order<'t, 'a>(
    alloc: Global,
    parts: &'t Vec<Part<'a>>,
) -> Result<Vec<Entry<'t, 'a>>, NoMemory>
    requires placed { ArePlaced parts.now.items }
    ensures value { IfOk result (λ entries. map entry_rows entries.items ≡ rows_in_order (entries_of parts.now.items)) }
    ensures same { IfOk result (λ entries. IsPermutation (entries_of parts.now.items) entries.items) }
{
    let mut entries = lent_entries(alloc, parts)?;
    sort_all(&mut entries);
    Ok(entries)
}

// The same, where at most so many threads sort pieces, which are then merged.
fn entries_in_order_by<'t, 'a, R: Threads + Sync>(
    rt: &R,
    threads: usize,
    alloc: Global,
    parts: &'t Vec<Part<'a>>,
) -> Result<Vec<Entry<'t, 'a>>, NoMemory>
    requires threads { 1 ≤ threads }
    requires placed { ArePlaced parts.now.items }
    ensures value { IfOk result (λ entries. map entry_rows entries.items ≡ rows_in_order (entries_of parts.now.items)) }
{
    let mut entries = lent_entries(alloc, parts)?;
    if threads == 1 || entries.len() < FEWEST_FOR_THREADS {
        sort_all(&mut entries);
        return Ok(entries);
    }
    let size = entries.len().div_ceil(threads);
    sort_pieces(rt, size, &mut entries);
    merge_pieces(&mut entries)?;
    Ok(entries)
}

// Sorts the index lists. No two of them are the same, so it doesn't matter how ties are sorted.
fn sort_all<'t, 'a>(entries: &mut Vec<Entry<'t, 'a>>)
    ensures value { SortsAll entries.old.items entries.new.items }
{
    entries.sort_unstable_by(|one, other| one.order(other));
}

// Sorts pieces of so many index lists, each in a thread of its own where one can be started.
fn sort_pieces<'t, 'a, R: Threads + Sync>(rt: &R, size: usize, entries: &mut Vec<Entry<'t, 'a>>)
    requires size { 0 < size }
    ensures same { IsPermutation entries.old.items entries.new.items }
{
    thread::for_each_chunk_mut(
        rt,
        entries.as_mut_slice(),
        size,
        &|_, piece: &mut [Entry]|
            ensures { IsPermutation piece.entry.now piece.exit.now }
        { piece.sort_unstable_by(|one, other| one.order(other)) },
    );
}

// Sorts index lists that stand in sorted pieces, which a stable sort finds and merges.
fn merge_pieces<'t, 'a>(entries: &mut Vec<Entry<'t, 'a>>) -> Result<(), NoMemory>
    ensures ok { OnOk result (SortsAll entries.old.items entries.new.items) }
{
    entries.sort_by(|one, other| one.order(other))?;
    Ok(())
}

// All index lists with their aggregators, one part after the other. No two of them are the same.
fn lent_entries<'t, 'a>(
    alloc: Global,
    parts: &'t Vec<Part<'a>>,
) -> Result<Vec<Entry<'t, 'a>>, NoMemory>
    requires placed { ArePlaced parts.now.items }
    ensures value { IfOk result (λ entries. entries.items ≡ entries_of parts.now.items) }
    ensures apart { OnOk result (IsDistinct same_indexes (keys_of (entries_of parts.now.items))) }
{
    let mut entries = Vec::new(alloc);
    for part in parts {
        lend_entries(part, &mut entries)?;
    }
    Ok(entries)
}

// Lends the index lists of a part with their aggregators, after the others. No two of them are the same.
fn lend_entries<'t, 'a>(
    part: &'t Part<'a>,
    entries: &mut Vec<Entry<'t, 'a>>,
) -> Result<(), NoMemory>
    ensures ok { OnOk result (entries.new.items ≡ entries.old.items ++ part.now.entries) }
    ensures apart { IsDistinct same_indexes (keys_of part.now.entries) }
{
    let lists = part.lists();
    entries.reserve(lists.len())?;
    for (key, aggregate) in lists {
        let key = RankedList::new(key);
        entries.push(Entry { key, aggregate })?;
    }
    Ok(())
}
