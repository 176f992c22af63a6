//! What tables hold, read from the front of bytes.
ghost use Rattle.std.specs.Prelude.{◌≡◌};
ghost use Rattle.sz_types.specs.Seen as shapes;
ghost use Rattle.sz_types.specs.SeenTables.{seen_table};
ghost use Rattle.sz_save_format.specs.Decoding.{Reads};
ghost use Rattle.sz_save_format.specs.DecodingRows as decoding;
ghost use Rattle.sz_save_format.specs.DecodingRows.{long_counted_at, kind_rows_at, entry_at, entries_at};

use crate::error::SavedError;
use crate::numbers::read_count;
use crate::order::entries_rise;
use crate::rows::{read_few_rows, read_many_rows, read_set, read_sum_row};
use crate::sized::read_indexes;
use std::alloc::Global;
use sz_tabs::Rows;
use sz_total::{IndexedRows, TableRows};
use sz_types::{TableDecl, TableKind};

// What a table holds, in front, where no more emits were counted than the bound says.
#[tactic(auto, unfolding(crate::specs::DecodingRows::entries_at))]
pub(crate) fn read_entries<'f>(
    alloc: Global,
    bound: u64,
    table: &TableDecl,
    flat: &'f [u8],
) -> Result<(TableRows, &'f [u8]), SavedError>
    ensures value { Reads (λ r. (r.0, r.1.now)) (entries_at bound (seen_table table.now) flat.now) result }
{
    let (entries, rest) = read_lists(alloc, bound, table, flat)?;
    if !are_entries(bound, &entries) {
        return Err(SavedError::NotSaved);
    }
    Ok((entries, rest))
}

// Whether these can be all index lists of a table.
fn are_entries(bound: u64, entries: &TableRows) -> bool
    ensures value { result ≡ decoding.are_entries bound entries.now }
{
    (bound != 0 || entries.is_empty()) && entries_rise(entries.as_slice())
}

// The index lists in front, behind their number, each with its rows.
#[tactic(auto, unfolding(crate::specs::DecodingRows::long_counted_at))]
fn read_lists<'f>(
    alloc: Global,
    bound: u64,
    table: &TableDecl,
    flat: &'f [u8],
) -> Result<(TableRows, &'f [u8]), SavedError>
    ensures value { Reads (λ r. (r.0, r.1.now)) (long_counted_at (entry_at bound (seen_table table.now)) flat.now) result }
{
    let (count, mut rest) = read_count(flat)?;
    let mut entries = TableRows::new(alloc);
    for _ in 0..count {
        let (entry, after) = read_entry(alloc, bound, table, rest)?;
        entries.push(entry)?;
        rest = after;
    }
    Ok((entries, rest))
}

/// The index list in front of a table, with its rows, where no more emits were counted than the bound says.
#[tactic(auto, unfolding(crate::specs::DecodingRows::entry_at))]
pub fn read_entry<'f>(
    alloc: Global,
    bound: u64,
    table: &TableDecl,
    flat: &'f [u8],
) -> Result<(IndexedRows, &'f [u8]), SavedError>
    ensures value { Reads (λ r. (r.0, r.1.now)) (entry_at bound (seen_table table.now) flat.now) result }
{
    let (indexes, rest) = read_indexes(alloc, table.indexes.as_slice(), flat)?;
    let (rows, rest) = read_kind_rows(alloc, bound, table, rest)?;
    Ok((IndexedRows { indexes, rows }, rest))
}

// The rows in front, of a table of any kind.
#[tactic(auto, unfolding(crate::specs::DecodingRows::kind_rows_at))]
fn read_kind_rows<'f>(
    alloc: Global,
    bound: u64,
    table: &TableDecl,
    flat: &'f [u8],
) -> Result<(Rows, &'f [u8]), SavedError>
    ensures value { Reads (λ r. (r.0, r.1.now)) (kind_rows_at table.now.kind bound table.now.limit (shapes.seen table.now.element) flat.now) result }
{
    let element = &table.element;
    match table.kind {
        TableKind::Sum => read_sum_row(alloc, bound as u128 * (1 << 63), element, flat),
        TableKind::Maximum => {
            read_few_rows(alloc, TableKind::Maximum, true, table.limit, element, flat)
        }
        TableKind::Minimum => {
            read_few_rows(alloc, TableKind::Minimum, true, table.limit, element, flat)
        }
        TableKind::Set => read_set(alloc, table.limit, element, flat),
        TableKind::Collection => read_many_rows(alloc, element, flat),
    }
}
