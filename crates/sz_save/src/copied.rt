//! Saved states that are copied.
ghost use Rattle.std.specs.Prelude.{◌≡◌, IfOk};
ghost use Rattle.sz_tabs.specs.Seen.{seen_shown};

use crate::declared::copied_decls;
use std::alloc::Global;
use sz_print::SavedTables;
use sz_save_format::{NoMemory, Saved};
use sz_tabs::{Row, RowValue, Rows, Sums};
use sz_total::{IndexedRows, TableRows};
use sz_value::{copy, copy_list};

// The same state once more.
pub(crate) fn copied_saved(alloc: Global, saved: &Saved) -> Result<Saved, NoMemory>
    ensures value { IfOk result (λ copied. copied ≡ saved.now) }
{
    let bound = saved.bound();
    let tables = copied_tables(alloc, saved.tables())?;
    let decls = copied_decls(alloc, saved.decls())?;
    Ok(Saved::new(bound, decls, tables))
}

// The same tables once more.
fn copied_tables(alloc: Global, tables: &SavedTables) -> Result<SavedTables, NoMemory>
    ensures value { IfOk result (λ copied. copied ≡ tables.now) }
{
    let mut copied = SavedTables::new(alloc);
    for entries in tables.as_slice() {
        copied.push(copied_entries(alloc, entries)?)?;
    }
    Ok(copied)
}

// The same index lists once more, each with its rows.
fn copied_entries(alloc: Global, entries: &TableRows) -> Result<TableRows, NoMemory>
    ensures value { IfOk result (λ copied. copied ≡ entries.now) }
{
    let mut copied = TableRows::new(alloc);
    for entry in entries.as_slice() {
        copied.push(copied_entry(alloc, entry)?)?;
    }
    Ok(copied)
}

// The same index list once more, with its rows.
fn copied_entry(alloc: Global, entry: &IndexedRows) -> Result<IndexedRows, NoMemory>
    ensures value { IfOk result (λ copied. copied ≡ entry.now) }
{
    let rows = copied_rows(alloc, &entry.rows)?;
    let indexes = copy_list(alloc, &entry.indexes)?;
    Ok(IndexedRows { indexes, rows })
}

// The same rows once more.
fn copied_rows(alloc: Global, rows: &Rows) -> Result<Rows, NoMemory>
    ensures value { IfOk result (λ copied. copied ≡ rows.now) }
{
    let mut copied = Rows::new(alloc);
    for row in rows.as_slice() {
        copied.push(copied_row(alloc, row)?)?;
    }
    Ok(copied)
}

// The same row once more.
fn copied_row(alloc: Global, row: &Row) -> Result<Row, NoMemory>
    ensures value { IfOk result (λ copied. copied ≡ row.now) }
{
    let value = copied_shown(alloc, &row.value)?;
    Ok(Row {
        value,
        weight: row.weight,
    })
}

// The same once more of what a row shows.
fn copied_shown(alloc: Global, shown: &RowValue) -> Result<RowValue, NoMemory>
    ensures value { IfOk result (λ copied. seen_shown copied ≡ seen_shown shown.now) }
{
    match shown {
        RowValue::One(value) => Ok(RowValue::One(copy(alloc, value)?)),
        RowValue::Sums(sums) => Ok(RowValue::Sums(Sums::copied(alloc, sums.as_slice())?)),
        RowValue::Overflow => Ok(RowValue::Overflow),
    }
}
