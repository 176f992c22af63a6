//! The index lists of both sides in ascending order, each with the rows of both.
ghost use Rattle.std.specs.Prelude.{◌≡◌, ◌≤◌, [], ◌∷◌, length, IfOk, IfSome, IfNone};
ghost use Rattle.sz_save.specs.Walk.{alone, other_alone, joined_entry, joined_entries, compare_firsts, Steps, CanJoin, RowsCanJoin, HasCountedRows, AreCounted};
ghost use Rattle.sz_save.specs.Taken.{Takes};

use crate::order::order_lists;
use crate::rows::join_rows;
use std::alloc::Global;
use std::cmp::Ordering;
use std::collections::VecDeque;
use std::mem;
use sz_tabs::{NoMemory, Rows};
use sz_total::{IndexedRows, TableRows};
use sz_types::TableKind;

// All index lists of both sides, each with the rows of both.
pub(crate) fn join_entries(
    alloc: Global,
    kind: TableKind,
    limit: u32,
    entries: TableRows,
    others: TableRows,
) -> Result<TableRows, NoMemory>
    requires can { CanJoin kind entries others }
    ensures value { IfOk result (λ joined. joined ≡ joined_entries kind limit entries others) }
    ensures counted { IfOk result (λ joined. AreCounted joined) }
{
    let mut joined = TableRows::new(alloc);
    let mut rest = VecDeque::from_vec(entries.into_vec());
    let mut left = VecDeque::from_vec(others.into_vec());
    while let Some(entry) = join_first(alloc, kind, limit, &mut rest, &mut left)? {
        joined.push(entry)?;
    }
    let _ = joined.len();
    Ok(joined)
}

// Takes the first index list of both sides, and gives it with the rows of both; none where there is none.
fn join_first(
    alloc: Global,
    kind: TableKind,
    limit: u32,
    entries: &mut VecDeque<IndexedRows>,
    others: &mut VecDeque<IndexedRows>,
) -> Result<Option<IndexedRows>, NoMemory>
    requires can { CanJoin kind entries.old.items others.old.items }
    ensures some { IfOk result (λ first. IfSome first (λ f. Steps kind limit entries.old.items others.old.items f entries.new.items others.new.items)) }
    ensures none { IfOk result (λ first. IfNone first (joined_entries kind limit entries.old.items others.old.items ≡ [])) }
{
    match take_first(entries, others) {
        First::Neither => Ok(None),
        First::One(entry) => {
            let joined = join_alone(alloc, kind, limit, entry)?;
            Ok(Some(joined))
        }
        First::Other(other) => {
            let joined = join_other_alone(alloc, kind, limit, other)?;
            Ok(Some(joined))
        }
        First::Both(entry, other) => {
            let joined = join_both(alloc, kind, limit, entry, other)?;
            Ok(Some(joined))
        }
    }
}

// The first index list of both sides.
#[derive(Drop)]
pub(crate) enum First {
    // There is none.
    Neither,
    // The other side hasn't this one.
    One(IndexedRows),
    // The other side alone has this one.
    Other(IndexedRows),
    // The other side has it too.
    Both(IndexedRows, IndexedRows),
}

// Takes the first index list of both sides.
fn take_first(entries: &mut VecDeque<IndexedRows>, others: &mut VecDeque<IndexedRows>) -> First
    ensures value { Takes result entries.old.items others.old.items entries.new.items others.new.items }
{
    match compare_firsts(entries, others) {
        None => First::Neither,
        Some(Ordering::Less) => First::One(take_entry(entries)),
        Some(Ordering::Equal) => {
            let entry = take_entry(entries);
            First::Both(entry, take_entry(others))
        }
        Some(Ordering::Greater) => First::Other(take_entry(others)),
    }
}

// How the first index lists of both sides compare. One that isn't there is greater.
fn compare_firsts(
    entries: &VecDeque<IndexedRows>,
    others: &VecDeque<IndexedRows>,
) -> Option<Ordering>
    ensures value { result ≡ compare_firsts entries.now.items others.now.items }
{
    match (entries.front(), others.front()) {
        (None, None) => None,
        (Some(_), None) => Some(Ordering::Less),
        (None, Some(_)) => Some(Ordering::Greater),
        (Some(entry), Some(other)) => Some(order_lists(&entry.indexes, &other.indexes)),
    }
}

// Takes the first index list of a side, which has one.
fn take_entry(entries: &mut VecDeque<IndexedRows>) -> IndexedRows
    requires some { 1 ≤ length entries.old.items }
    ensures value { entries.old.items ≡ result ∷ entries.new.items }
{
    let Some(entry) = entries.pop_front() else {
        unreachable!()
    };
    entry
}

// An index list that the other side hasn't.
pub(crate) fn join_alone(
    alloc: Global,
    kind: TableKind,
    limit: u32,
    entry: IndexedRows,
) -> Result<IndexedRows, NoMemory>
    requires can { RowsCanJoin kind entry.rows [] }
    ensures value { IfOk result (λ joined. joined ≡ alone kind limit entry) }
    ensures few { IfOk result (λ joined. HasCountedRows joined) }
{
    let mut joined = entry;
    let rows = take_rows(alloc, &mut joined);
    joined.rows = join_rows(alloc, kind, limit, rows, Rows::new(alloc))?;
    let _ = joined.rows.len();
    Ok(joined)
}

// An index list that the other side alone has.
pub(crate) fn join_other_alone(
    alloc: Global,
    kind: TableKind,
    limit: u32,
    other: IndexedRows,
) -> Result<IndexedRows, NoMemory>
    requires can { RowsCanJoin kind [] other.rows }
    ensures value { IfOk result (λ joined. joined ≡ other_alone kind limit other) }
    ensures few { IfOk result (λ joined. HasCountedRows joined) }
{
    let mut joined = other;
    let rows = take_rows(alloc, &mut joined);
    joined.rows = join_rows(alloc, kind, limit, Rows::new(alloc), rows)?;
    let _ = joined.rows.len();
    Ok(joined)
}

// An index list of both sides.
pub(crate) fn join_both(
    alloc: Global,
    kind: TableKind,
    limit: u32,
    entry: IndexedRows,
    other: IndexedRows,
) -> Result<IndexedRows, NoMemory>
    requires can { RowsCanJoin kind entry.rows other.rows }
    ensures value { IfOk result (λ joined. joined ≡ joined_entry kind limit entry.indexes entry.rows other.rows) }
    ensures few { IfOk result (λ joined. HasCountedRows joined) }
{
    let mut joined = entry;
    let mut other = other;
    let rows = take_rows(alloc, &mut joined);
    joined.rows = join_rows(alloc, kind, limit, rows, take_rows(alloc, &mut other))?;
    let _ = joined.rows.len();
    Ok(joined)
}

// Takes the rows under an index list, which has none then.
fn take_rows(alloc: Global, entry: &mut IndexedRows) -> Rows
    ensures rows { result ≡ entry.old.rows }
    ensures kept { entry.new.indexes ≡ entry.old.indexes }
{
    mem::replace(&mut entry.rows, Rows::new(alloc))
}
