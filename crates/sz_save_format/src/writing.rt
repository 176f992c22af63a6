//! The bytes of saved tables.
ghost use Rattle.std.specs.Prelude.{◌≡◌, ◌++◌, All, length, map, zip, flat_map, IfOk, OnOk};
ghost use Rattle.sz_types.specs.SeenTables.{seen_table};
ghost use Rattle.sz_save_format.specs.Saved.{Saves, table_bytes};
ghost use Rattle.sz_save_format.specs.Short.{HasShortEntry};

use crate::NoMemory;
use crate::put::{put_count, put_declaration, put_length};
use crate::put_rows::put_entries;
use crate::saved::{MARK, Saved};
use std::alloc::Global;
use sz_total::TableRows;
use sz_types::TableDecl;
use sz_value::Octets;

/// The bytes of saved tables, from which `read_saved` reads them again.
pub fn write_saved(alloc: Global, saved: &Saved) -> Result<Octets, NoMemory>
    ensures value { IfOk result (λ bytes. Saves bytes saved.now) }
{
    let mut out = Vec::new(alloc);
    out.extend_from_slice(MARK)?;
    put_count(saved.bound(), &mut out)?;
    put_length(saved.decls().len(), &mut out)?;
    put_tables(
        alloc,
        saved.decls().as_slice(),
        saved.tables().as_slice(),
        &mut out,
    )?;
    Ok(Octets::from_vec(out))
}

// Appends each of the tables.
fn put_tables(
    alloc: Global,
    decls: &[TableDecl],
    tables: &[TableRows],
    out: &mut Vec<u8>,
) -> Result<(), NoMemory>
    requires as_many { length tables.now ≡ length decls.now }
    requires short { All (All HasShortEntry) tables.now }
    ensures value { OnOk result (out.new.items ≡ out.old.items ++ flat_map table_bytes (zip (map seen_table decls.now) tables.now)) }
{
    for i in 0..decls.len() {
        put_table(alloc, &decls[i], &tables[i], out)?;
    }
    Ok(())
}

// Appends a table: its declaration, and what it holds.
fn put_table(
    alloc: Global,
    decl: &TableDecl,
    rows: &TableRows,
    out: &mut Vec<u8>,
) -> Result<(), NoMemory>
    requires short { All HasShortEntry rows.now }
    ensures value { OnOk result (out.new.items ≡ out.old.items ++ table_bytes (seen_table decl.now, rows.now)) }
{
    put_declaration(decl, out)?;
    put_entries(alloc, decl.kind, rows.as_slice(), out)
}
