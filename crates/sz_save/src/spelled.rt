//! That what tables show can be spelled: each value is spelled once, so that its number of bytes is known to be a count.
ghost use Rattle.std.specs.Prelude.{All, map, IfSome, OnOk};
ghost use Rattle.std.specs.List.{AllByRecursion};
ghost use Rattle.sz_value.specs.Seen.{seen};
ghost use Rattle.sz_flat.specs.Spelling.{HasShortLengths};
ghost use Rattle.sz_tabs.specs.Seen.{seen_shown};
ghost use Rattle.sz_save_format.specs.Short.{ShowsShort, HasShortRow, HasShortEntry};
ghost use Rattle.sz_save.specs.Spelled.{IsSpelled, ShowsSpelled, IsSpelledWeight, IsSpelledRow, IsSpelledEntry, AreSpelled};

use std::alloc::Global;
use sz_flat::to_flat;
use sz_tabs::{NoMemory, Row, RowValue};
use sz_total::IndexedRows;
use sz_value::Value;

// Spells what a table shows.
pub(crate) fn spell_entries(alloc: Global, entries: &[IndexedRows]) -> Result<(), NoMemory>
    requires short { All HasShortEntry entries.now }
    ensures ok { OnOk result (AreSpelled entries.now) }
{
    let _ = entries.len();
    spell_each_entry(alloc, entries)
}

// Spells each of the index lists and the rows under it.
fn spell_each_entry(alloc: Global, entries: &[IndexedRows]) -> Result<(), NoMemory>
    requires short { All HasShortEntry entries.now }
    ensures ok { OnOk result (AllByRecursion IsSpelledEntry entries.now) }
{
    for entry in entries {
        spell_entry(alloc, entry)?;
    }
    Ok(())
}

// Spells an index list and the rows under it.
fn spell_entry(alloc: Global, entry: &IndexedRows) -> Result<(), NoMemory>
    requires short { HasShortEntry entry.now }
    ensures ok { OnOk result (IsSpelledEntry entry.now) }
{
    let _ = entry.rows.len();
    spell_values(alloc, entry.indexes.as_slice())?;
    spell_rows(alloc, entry.rows.as_slice())
}

// Spells each of the values.
fn spell_values(alloc: Global, values: &[Value]) -> Result<(), NoMemory>
    requires short { All (λ v. HasShortLengths (seen v)) values.now }
    ensures ok { OnOk result (AllByRecursion IsSpelled (map seen values.now)) }
{
    for value in values {
        spell_value(alloc, value)?;
    }
    Ok(())
}

// Spells a value.
fn spell_value(alloc: Global, value: &Value) -> Result<(), NoMemory>
    requires short { HasShortLengths (seen value.now) }
    ensures ok { OnOk result (IsSpelled (seen value.now)) }
{
    let flat = to_flat(alloc, value)?;
    let _ = flat.len();
    Ok(())
}

// Spells each of the rows.
fn spell_rows(alloc: Global, rows: &[Row]) -> Result<(), NoMemory>
    requires short { All HasShortRow rows.now }
    ensures ok { OnOk result (AllByRecursion IsSpelledRow rows.now) }
{
    for row in rows {
        spell_row(alloc, row)?;
    }
    Ok(())
}

// Spells what a row shows.
fn spell_row(alloc: Global, row: &Row) -> Result<(), NoMemory>
    requires short { HasShortRow row.now }
    ensures ok { OnOk result (IsSpelledRow row.now) }
{
    has_64_bits(&row.weight);
    spell_shown(alloc, &row.value)
}

// A weight, if there is one, has 64 bits.
fn has_64_bits(weight: &Option<i64>)
    ensures value { IfSome weight.now IsSpelledWeight }
{
    if let Some(weight) = weight {
        number_has_64_bits(*weight);
    }
}

// A number has 64 bits.
fn number_has_64_bits(number: i64)
    ensures value { IsSpelledWeight number }
{}

// Spells the value, if one is shown.
fn spell_shown(alloc: Global, shown: &RowValue) -> Result<(), NoMemory>
    requires short { ShowsShort (seen_shown shown.now) }
    ensures ok { OnOk result (ShowsSpelled (seen_shown shown.now)) }
{
    match shown {
        RowValue::One(value) => spell_value(alloc, value),
        RowValue::Sums(_) | RowValue::Overflow => Ok(()),
    }
}
