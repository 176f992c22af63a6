//! What a run saves: the declarations of its tables, what they show, and a bound.
ghost use Rattle.std.specs.Prelude.{◌≡◌, ◌<◌, ◌≤◌, ◌*◌, ◌^◌, List, length, IfOk};
ghost use Rattle.std.specs.List.{AllByRecursion};
ghost use Rattle.sz_tabs.specs.Data.{EmitDatum};
ghost use Rattle.sz_total.specs.States.{declarations, emit_count, shown};
ghost use Rattle.sz_total.specs.Totals.{StandsFor};
ghost use Rattle.sz_save.specs.Saving.{HaveSpelling, shown_from, state_shown, state_of_emits};
ghost use Rattle.sz_save.specs.Spelled.{CanBeWritten};

use crate::declared::copied_decls;
use crate::spelled::spell_entries;
use std::alloc::Global;
use sz_print::SavedTables;
use sz_save_format::{NoMemory, Saved};
use sz_total::{TableRows, Total, a_table_shows_its_indexes, what_is_shown_fits};
use sz_types::TableDecls;

/// What the tables of a total show, as it is saved. The declarations are those of the total, and each has a spelling; the bound is at
/// least the number of emits that were added.
pub fn save<'a>(
    alloc: Global,
    total: &Total<'a>,
    decls: &TableDecls,
    bound: u64,
) -> Result<Saved, NoMemory>
    requires same { total.now.tables ≡ decls.now }
    requires spelled { HaveSpelling decls.now }
    requires enough { total.now.count ≤ bound }
    requires low { bound ≤ 2 ^ 63 }
    ensures value { IfOk result (λ saved. saved ≡ state_shown bound total.now) }
    ensures emits { (emits : List EmitDatum) → StandsFor declarations emit_count shown total.now emits
        → IfOk result (λ saved. saved ≡ state_of_emits bound decls.now emits) }
{
    state_of(alloc, total, decls, bound)
}

// The same by what the total shows.
fn state_of<'a>(
    alloc: Global,
    total: &Total<'a>,
    decls: &TableDecls,
    bound: u64,
) -> Result<Saved, NoMemory>
    requires same { total.now.tables ≡ decls.now }
    requires spelled { HaveSpelling decls.now }
    requires enough { total.now.count ≤ bound }
    requires low { bound ≤ 2 ^ 63 }
    ensures value { IfOk result (λ saved. saved ≡ state_shown bound total.now) }
{
    a_table_shows_its_indexes();
    what_is_shown_fits();
    let _ = total.emits();
    let tables = tables_shown(alloc, total, decls)?;
    let decls = copied_decls(alloc, decls)?;
    Ok(Saved::new(bound, decls, tables))
}

// The rows of each table of the total.
fn tables_shown<'a>(
    alloc: Global,
    total: &Total<'a>,
    decls: &TableDecls,
) -> Result<SavedTables, NoMemory>
    requires same { total.now.tables ≡ decls.now }
    ensures value { IfOk result (λ tables. tables ≡ shown_from 0 decls.now (shown total.now)) }
    ensures each { IfOk result (λ tables. AllByRecursion (CanBeWritten (2 ^ 63 * total.now.count)) tables) }
{
    let mut tables = SavedTables::new(alloc);
    for number in 0..decls.len() {
        let rows = table_shown(alloc, total, number)?;
        tables.push(rows)?;
    }
    Ok(tables)
}

// The rows of a table of the total.
fn table_shown<'a>(alloc: Global, total: &Total<'a>, number: usize) -> Result<TableRows, NoMemory>
    requires declared { number < length total.now.tables }
    ensures value { IfOk result (λ rows. rows ≡ shown total.now number) }
    ensures written { IfOk result (λ rows. CanBeWritten (2 ^ 63 * total.now.count) rows) }
{
    what_is_shown_fits();
    let _ = total.emits();
    let rows = total.rows(number)?;
    spell_entries(alloc, rows.as_slice())?;
    Ok(rows)
}
