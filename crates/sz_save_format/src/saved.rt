//! Saved tables, and the bytes that they are read from.
ghost use Rattle.std.specs.Prelude.{◌≡◌, length, zip, IfOk, IsErrOf};
ghost use Rattle.sz_types.specs.SeenTables.{seen_table};
ghost use Rattle.sz_save_format.specs.declared.error.SavedError.TheVariants as errors;
ghost use Rattle.sz_save_format.specs.Saved.{SavedState, CanBeSaved, Saves};
ghost use Rattle.sz_save_format.specs.Decoding.{Reads, counted_at};
ghost use Rattle.sz_save_format.specs.DecodingRows.{mark_at, head_at, table_at};

use crate::declarations::read_declaration;
use crate::entries::read_entries;
use crate::error::SavedError;
use crate::numbers::{read_count, read_length};
use std::alloc::Global;
use std::marker::Model;
use sz_print::SavedTables;
use sz_total::TableRows;
use sz_types::{TableDecl, TableDecls};

/// How saved tables begin.
pub(crate) const MARK: &[u8] = b"SZTABLE1";

/// The greatest bound.
const MOST: u64 = 1 << 63;

/// What the tables of a program hold, with their declarations and with a bound on the emits that were counted.
///
/// Contracts see the bound, the declarations and the rows; that they have bytes, is kept.
pub struct Saved {
    bound: u64,
    decls: TableDecls,
    tables: SavedTables,
}

impl Drop for Saved {
    fn drop(self) {
        let Saved {
            bound: _,
            decls: _,
            tables: _,
        } = self;
    }
}

impl Model for Saved {
    ghost use Rattle.sz_save_format.specs.Saved.{SavedState, CanBeSaved};
    ghost use Rattle.sz_save_format.specs.Code.{saved_code};

    ghost Value = { SavedState };

    ghost coded = { saved_code };

    ghost view = { λ s. record { bound = s.bound; decls = s.decls; tables = s.tables } };

    ghost invariant = { λ s. CanBeSaved (record { bound = s.bound; decls = s.decls; tables = s.tables }) };
}

impl Saved {
    /// What a program's tables hold, all of which can be saved.
    pub fn new(bound: u64, decls: TableDecls, tables: SavedTables) -> Saved
        requires can { CanBeSaved (record { bound = bound; decls = decls; tables = tables }) }
        ensures value { result ≡ record { bound = bound; decls = decls; tables = tables } }
    {
        Saved {
            bound,
            decls,
            tables,
        }
    }

    /// No more emits were counted than this.
    pub fn bound(&self) -> u64
        ensures value { result ≡ self.now.bound }
        ensures can { CanBeSaved self.now }
    {
        self.bound
    }

    /// The declarations of the tables, in order.
    pub fn decls(&self) -> &TableDecls
        ensures value { result.now ≡ self.now.decls }
    {
        &self.decls
    }

    /// The rows of each table, in order.
    pub fn tables(&self) -> &SavedTables
        ensures value { result.now ≡ self.now.tables }
    {
        &self.tables
    }

    /// Gives back the declarations and the rows of each table, and takes no memory.
    pub fn into_parts(self) -> (TableDecls, SavedTables)
        ensures decls { result.0 ≡ self.decls }
        ensures tables { result.1 ≡ self.tables }
    {
        let Saved {
            bound: _,
            decls,
            tables,
        } = self;
        (decls, tables)
    }
}

/// The tables that the bytes are those of, all of them.
pub fn read_saved(alloc: Global, bytes: &[u8]) -> Result<Saved, SavedError>
    ensures value { IfOk result (λ saved. Saves bytes.now saved) }
    ensures not_saved { IsErrOf result errors.NotSaved → (saved : SavedState) → Saves bytes.now saved → ⊥ }
{
    let (bound, rest) = read_head(bytes)?;
    let (tables, rest) = read_tables(alloc, bound, rest)?;
    if !rest.is_empty() {
        return Err(SavedError::NotSaved);
    }
    let Tables { decls, tables } = tables;
    Ok(Saved {
        bound,
        decls,
        tables,
    })
}

// What is read of the tables.
#[derive(Drop)]
struct Tables {
    decls: TableDecls,
    tables: SavedTables,
}

/// The bound behind the mark, in front of a file.
#[tactic(auto, unfolding(crate::specs::DecodingRows::head_at))]
pub fn read_head(flat: &[u8]) -> Result<(u64, &[u8]), SavedError>
    ensures value { Reads (λ r. (r.0, r.1.now)) (head_at flat.now) result }
{
    let rest = read_mark(flat)?;
    let (bound, rest) = read_count(rest)?;
    if bound > MOST {
        return Err(SavedError::NotSaved);
    }
    Ok((bound, rest))
}

// What stands behind the mark.
#[tactic(auto, unfolding(crate::specs::DecodingRows::mark_at))]
fn read_mark(flat: &[u8]) -> Result<&[u8], SavedError>
    ensures value { Reads (λ r. (0, r.now)) (mark_at flat.now) result }
{
    if flat.len() < 8 {
        return Err(SavedError::NotSaved);
    }
    let (front, rest) = flat.split_at(8);
    if front != MARK {
        return Err(SavedError::NotSaved);
    }
    Ok(rest)
}

// The tables in front, behind their number.
#[tactic(auto, unfolding(crate::specs::Decoding::counted_at))]
fn read_tables(alloc: Global, bound: u64, flat: &[u8]) -> Result<(Tables, &[u8]), SavedError>
    ensures value { Reads (λ r. (zip r.0.decls r.0.tables, r.1.now)) (counted_at (table_at bound) flat.now) result }
    ensures as_many { IfOk result (λ r. length r.0.tables ≡ length r.0.decls) }
{
    let (count, mut rest) = read_length(flat)?;
    let mut decls = TableDecls::new(alloc);
    let mut tables = SavedTables::new(alloc);
    for _ in 0..count {
        let (decl, rows, after) = read_table(alloc, bound, rest)?;
        decls.push(decl)?;
        tables.push(rows)?;
        rest = after;
    }
    Ok((Tables { decls, tables }, rest))
}

// The table in front: its declaration, and what it holds.
#[tactic(auto, unfolding(crate::specs::DecodingRows::table_at))]
fn read_table(
    alloc: Global,
    bound: u64,
    flat: &[u8],
) -> Result<(TableDecl, TableRows, &[u8]), SavedError>
    ensures value { Reads (λ r. ((seen_table r.0, r.1), r.2.now)) (table_at bound flat.now) result }
{
    let (decl, rest) = read_declaration(alloc, flat)?;
    let (rows, rest) = read_entries(alloc, bound, &decl, rest)?;
    Ok((decl, rows, rest))
}
