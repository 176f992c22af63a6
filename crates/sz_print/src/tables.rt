//! The text of all tables.
ghost use Rattle.std.specs.Prelude.{◌≡◌, ◌≤◌, ◌++◌, List, length, IfOk, OnOk};
ghost use Rattle.sz_types.specs.SeenTables.{seen_table};
ghost use Rattle.sz_tabs.specs.Data.{EmitDatum};
ghost use Rattle.sz_total.specs.States.{declarations, emit_count, shown};
ghost use Rattle.sz_total.specs.Totals.{StandsFor};
ghost use Rattle.sz_print.specs.Tables.{table_lines, rows_text, lists_text, tables_text};

use crate::pieces::{push_by, push_in_order};
use crate::row::push_rows;
use std::alloc::Global;
use std::thread::Threads;
use sz_list::Items;
use sz_tabs::NoMemory;
use sz_total::{IndexedRows, TableRows, Total};
use sz_types::{TableDecl, TableDecls};
use sz_value::Octets;

/// The rows of each table, in the order of the declarations. Places are counted from 0.
pub type SavedTables = Items<TableRows>;

/// The text of tables with these rows: in the order of their declarations, with the index lists of each in the order in which they
/// stand. There are as many tables as declarations.
pub fn text_rows(
    alloc: Global,
    decls: &TableDecls,
    tables: &SavedTables,
) -> Result<Octets, NoMemory>
    requires as_many { length tables.now ≡ length decls.now }
    ensures value { IfOk result (λ text. text ≡ lists_text decls.now tables.now) }
{
    let mut text = Vec::new(alloc);
    for (number, table) in decls.as_slice().iter().enumerate() {
        push_table(table, tables.get(number).as_slice(), &mut text)?;
    }
    Ok(Octets::from_vec(text))
}

/// The text of all tables: in the order of their declarations, with the index lists of each in value order. The declarations are
/// those of the total.
pub fn text<'a>(alloc: Global, total: &Total<'a>, tables: &TableDecls) -> Result<Vec<u8>, NoMemory>
    requires declared { tables.now ≡ total.now.tables }
    ensures rows { IfOk result (λ text. text.items ≡ rows_text tables.now (shown total.now)) }
    ensures value { (emits : List EmitDatum) → StandsFor declarations emit_count shown total.now emits
        → IfOk result (λ text. text.items ≡ tables_text tables.now emits) }
{
    text_of_rows(alloc, total, tables)
}

/// The same, made by so many threads where they can be started: the index lists of a table that has thousands of them are put in order
/// in as many pieces, and so are their lines made. Values go as deep as the types of the program, and a thread has the stack that the system
/// gives it, so a program with high types is for one thread.
pub fn text_by<'a, R: Threads + Sync>(
    rt: &R,
    alloc: Global,
    total: &Total<'a>,
    tables: &TableDecls,
    threads: u32,
) -> Result<Vec<u8>, NoMemory>
    requires declared { tables.now ≡ total.now.tables }
    requires threads { 1 ≤ threads }
    ensures rows { IfOk result (λ text. text.items ≡ rows_text tables.now (shown total.now)) }
    ensures value { (emits : List EmitDatum) → StandsFor declarations emit_count shown total.now emits
        → IfOk result (λ text. text.items ≡ tables_text tables.now emits) }
{
    text_of_rows_by(rt, alloc, total, tables, threads)
}

// The text of what the tables show.
fn text_of_rows<'a>(
    alloc: Global,
    total: &Total<'a>,
    tables: &TableDecls,
) -> Result<Vec<u8>, NoMemory>
    requires declared { tables.now ≡ total.now.tables }
    ensures rows { IfOk result (λ text. text.items ≡ rows_text tables.now (shown total.now)) }
{
    let mut text = Vec::new(alloc);
    for (number, table) in tables.as_slice().iter().enumerate() {
        push_in_order(alloc, table, &total.in_order(number)?, &mut text)?;
    }
    Ok(text)
}

// The same by so many threads.
fn text_of_rows_by<'a, R: Threads + Sync>(
    rt: &R,
    alloc: Global,
    total: &Total<'a>,
    tables: &TableDecls,
    threads: u32,
) -> Result<Vec<u8>, NoMemory>
    requires declared { tables.now ≡ total.now.tables }
    requires threads { 1 ≤ threads }
    ensures rows { IfOk result (λ text. text.items ≡ rows_text tables.now (shown total.now)) }
{
    let mut text = Vec::new(alloc);
    for (number, table) in tables.as_slice().iter().enumerate() {
        let rows = total.in_order_by(rt, threads as usize, number)?;
        push_by(rt, alloc, table, &rows, threads, &mut text)?;
    }
    Ok(text)
}

// Appends the lines of a table with these rows.
fn push_table(table: &TableDecl, shown: &[IndexedRows], out: &mut Vec<u8>) -> Result<(), NoMemory>
    ensures value { OnOk result (out.new.items ≡ out.old.items ++ table_lines (seen_table table.now) shown.now) }
{
    for one in shown {
        push_rows(table, &one.indexes, &one.rows, out)?;
    }
    Ok(())
}
