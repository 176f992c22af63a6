//! Values, rows and index lists, appended to bytes.
ghost use Rattle.std.specs.Prelude.{◌≡◌, ◌++◌, All, map, flat_map, OnOk};
ghost use Rattle.sz_types.specs.declared.table.TableKind.TheVariants as kinds;
ghost use Rattle.sz_value.specs.Seen.{seen};
ghost use Rattle.sz_flat.specs.Spelling.{HasShortLengths};
ghost use Rattle.sz_tabs.specs.Seen.{seen_shown};
ghost use Rattle.sz_save_format.specs.Entries as rules;
ghost use Rattle.sz_save_format.specs.Entries.{sum_bytes, value_bytes, shown_bytes, rank_bytes, row_bytes, front_bytes, entry_bytes, entries_bytes};
ghost use Rattle.sz_save_format.specs.Short.{ShowsShort, HasShortRow, HasShortEntry};

use crate::NoMemory;
use crate::put::{put_byte, put_count, put_length, put_number, put_sum};
use std::alloc::Global;
use sz_flat::to_flat;
use sz_tabs::{Row, RowValue};
use sz_total::IndexedRows;
use sz_types::TableKind;
use sz_value::Value;

// Appends what a table holds.
pub(crate) fn put_entries(
    alloc: Global,
    kind: TableKind,
    entries: &[IndexedRows],
    out: &mut Vec<u8>,
) -> Result<(), NoMemory>
    requires short { All HasShortEntry entries.now }
    ensures value { OnOk result (out.new.items ≡ out.old.items ++ entries_bytes kind entries.now) }
{
    put_count(entries.len() as u64, out)?;
    put_each_entry(alloc, kind, entries, out)
}

// Appends each of the index lists, with its rows.
fn put_each_entry(
    alloc: Global,
    kind: TableKind,
    entries: &[IndexedRows],
    out: &mut Vec<u8>,
) -> Result<(), NoMemory>
    requires short { All HasShortEntry entries.now }
    ensures value { OnOk result (out.new.items ≡ out.old.items ++ flat_map (entry_bytes kind) entries.now) }
{
    for entry in entries {
        put_entry(alloc, kind, entry, out)?;
    }
    Ok(())
}

// Appends an index list and the rows under it.
fn put_entry(
    alloc: Global,
    kind: TableKind,
    entry: &IndexedRows,
    out: &mut Vec<u8>,
) -> Result<(), NoMemory>
    requires short { HasShortEntry entry.now }
    ensures value { OnOk result (out.new.items ≡ out.old.items ++ entry_bytes kind entry.now) }
{
    put_values(alloc, entry.indexes.as_slice(), out)?;
    put_front(kind, entry.rows.as_slice(), out)?;
    put_rows(alloc, entry.rows.as_slice(), out)
}

// Appends each of the values behind the number of its bytes.
fn put_values(alloc: Global, values: &[Value], out: &mut Vec<u8>) -> Result<(), NoMemory>
    requires short { All (λ v. HasShortLengths (seen v)) values.now }
    ensures value { OnOk result (out.new.items ≡ out.old.items ++ flat_map value_bytes (map seen values.now)) }
{
    for value in values {
        put_value(alloc, value, out)?;
    }
    Ok(())
}

// Appends a value behind the number of its bytes.
fn put_value(alloc: Global, value: &Value, out: &mut Vec<u8>) -> Result<(), NoMemory>
    requires short { HasShortLengths (seen value.now) }
    ensures value { OnOk result (out.new.items ≡ out.old.items ++ value_bytes (seen value.now)) }
{
    let flat = to_flat(alloc, value)?;
    put_count(flat.len() as u64, out)?;
    out.extend_from_slice(flat.as_slice())?;
    Ok(())
}

// Appends what stands before the rows under an index list.
fn put_front(kind: TableKind, rows: &[Row], out: &mut Vec<u8>) -> Result<(), NoMemory>
    ensures value { OnOk result (out.new.items ≡ out.old.items ++ front_bytes kind rows.now) }
{
    match kind {
        TableKind::Sum => Ok(()),
        TableKind::Maximum | TableKind::Minimum => put_length(rows.len(), out),
        TableKind::Set => put_set_front(rows, out),
        TableKind::Collection => put_count(rows.len() as u64, out),
    }
}

// Appends what stands before the rows of a set.
fn put_set_front(rows: &[Row], out: &mut Vec<u8>) -> Result<(), NoMemory>
    ensures value { OnOk result (out.new.items ≡ out.old.items ++ front_bytes kinds.Set rows.now) }
{
    if overflows(rows) {
        return put_byte(1, out);
    }
    put_byte(0, out)?;
    put_length(rows.len(), out)
}

// Whether the first row says that a set has too many values.
fn overflows(rows: &[Row]) -> bool
    ensures value { result ≡ rules.overflows rows.now }
{
    match rows {
        [] => false,
        [row, ..] => matches!(&row.value, RowValue::Overflow),
    }
}

// Appends each of the rows.
fn put_rows(alloc: Global, rows: &[Row], out: &mut Vec<u8>) -> Result<(), NoMemory>
    requires short { All HasShortRow rows.now }
    ensures value { OnOk result (out.new.items ≡ out.old.items ++ flat_map row_bytes rows.now) }
{
    for row in rows {
        put_row(alloc, row, out)?;
    }
    Ok(())
}

// Appends a row.
fn put_row(alloc: Global, row: &Row, out: &mut Vec<u8>) -> Result<(), NoMemory>
    requires short { HasShortRow row.now }
    ensures value { OnOk result (out.new.items ≡ out.old.items ++ row_bytes row.now) }
{
    put_shown(alloc, &row.value, out)?;
    put_rank(row.weight, out)
}

// Appends what a row shows.
fn put_shown(alloc: Global, shown: &RowValue, out: &mut Vec<u8>) -> Result<(), NoMemory>
    requires short { ShowsShort (seen_shown shown.now) }
    ensures value { OnOk result (out.new.items ≡ out.old.items ++ shown_bytes (seen_shown shown.now)) }
{
    match shown {
        RowValue::One(value) => put_value(alloc, value, out),
        RowValue::Sums(sums) => {
            put_length(sums.len(), out)?;
            put_sums(sums.as_slice(), out)
        }
        RowValue::Overflow => Ok(()),
    }
}

// Appends each of the sums.
fn put_sums(sums: &[i128], out: &mut Vec<u8>) -> Result<(), NoMemory>
    ensures value { OnOk result (out.new.items ≡ out.old.items ++ flat_map sum_bytes sums.now) }
{
    for sum in sums {
        put_sum(*sum, out)?;
    }
    Ok(())
}

// Appends the weight, if there is one.
fn put_rank(weight: Option<i64>, out: &mut Vec<u8>) -> Result<(), NoMemory>
    ensures value { OnOk result (out.new.items ≡ out.old.items ++ rank_bytes weight) }
{
    match weight {
        Some(weight) => put_number(weight, out),
        None => Ok(()),
    }
}
