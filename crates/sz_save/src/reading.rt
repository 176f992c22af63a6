//! A saved file that is joined to what is kept while it is read: an index list that is kept already takes no memory, and no other takes any twice.
ghost use Rattle.std.specs.Prelude.{◌≡◌, ◌↔◌, ◌==◌, ◌||◌, ◌≤◌, ◌+◌, ◌^◌, ℕ, not, IsTrue, List, length, Some, IfOk, IfErr};
ghost use Rattle.sz_types.specs.SeenTables.{seen_table};
ghost use Rattle.sz_save_format.specs.Decoding.{Stops};
ghost use Rattle.sz_save_format.specs.DecodingRows.{head_at, entries_at};
ghost use Rattle.sz_save.specs.Reading.{CanTakeMore, CanTakeAll, ReadsJoined, ReadsTable, StopsTable, ReadsTables, StopsTables, JoinsRead, StopsRead};

use crate::declared::same_decl;
use crate::joining::take_table;
use crate::stopped::ReadJoinError;
use crate::walk::{is_above_last, join_entry, join_rest, walk_over};
use std::alloc::Global;
use std::collections::VecDeque;
use sz_print::SavedTables;
use sz_save_format::{
    Saved, SavedError, read_count, read_declaration, read_entry, read_head, read_length,
};
use sz_total::TableRows;
use sz_types::{TableDecl, TableDecls};

/// What is kept and what the bytes are saved of, together; of what is kept nothing is left where there is an error. The bounds together aren't
/// too large.
///
/// `NotSaved` comes only where the bytes are no saved file. `Other` comes where they are one with other declarations; it may come too where
/// they are none, since nothing behind the first other declaration is read. So whoever has to tell the two apart reads the bytes once more.
pub fn join_read(alloc: Global, one: Saved, bytes: &[u8]) -> Result<Saved, ReadJoinError>
    requires low { (bound : ℕ) (rest : List ℕ) → head_at bytes.now ≡ Some (bound, rest) → one.bound + bound ≤ 2 ^ 63 }
    ensures value { IfOk result (λ both. JoinsRead one bytes.now both) }
    ensures stopped { IfErr result (λ error. StopsRead one bytes.now error) }
{
    let (bound, rest) = read_head(bytes)?;
    let sum = one.bound() + bound;
    let (decls, tables) = one.into_parts();
    let (joined, left) = join_tables_read(alloc, bound, &decls, tables, rest)?;
    if !left.is_empty() {
        return Err(ReadJoinError::NotSaved);
    }
    Ok(Saved::new(sum, decls, joined))
}

// Each table in front, behind their number, joined to what is kept of it.
fn join_tables_read<'f>(
    alloc: Global,
    bound: u64,
    decls: &TableDecls,
    tables: SavedTables,
    flat: &'f [u8],
) -> Result<(SavedTables, &'f [u8]), ReadJoinError>
    requires can { CanTakeAll bound decls.now tables }
    ensures value { IfOk result (λ r. ReadsTables bound decls.now tables flat.now r.0 r.1.now) }
    ensures stopped { IfErr result (λ error. StopsTables bound decls.now flat.now error) }
{
    let (count, mut rest) = read_length(flat)?;
    if !are_as_many(count, decls) {
        return Err(ReadJoinError::Other);
    }
    let mut joined = SavedTables::new(alloc);
    let mut left = VecDeque::from_vec(tables.into_vec());
    for i in 0..decls.len() {
        let kept = take_table(&mut left);
        let (rows, after) = join_table_read(alloc, bound, decls.get(i), kept, rest)?;
        joined.push(rows)?;
        rest = after;
    }
    Ok((joined, rest))
}

// Whether there are so many declarations.
fn are_as_many(count: u32, decls: &TableDecls) -> bool
    ensures value { IsTrue result ↔ (count ≡ length decls.now) }
{
    count as usize == decls.len()
}

// The table in front, joined to what is kept of it.
fn join_table_read<'f>(
    alloc: Global,
    bound: u64,
    decl: &TableDecl,
    kept: TableRows,
    flat: &'f [u8],
) -> Result<(TableRows, &'f [u8]), ReadJoinError>
    requires can { CanTakeMore bound (seen_table decl.now) kept }
    ensures value { IfOk result (λ r. ReadsTable bound (seen_table decl.now) kept flat.now r.0 r.1.now) }
    ensures stopped { IfErr result (λ error. StopsTable bound (seen_table decl.now) flat.now error) }
{
    let (read, rest) = read_declaration(alloc, flat)?;
    if !same_decl(&read, decl) {
        return Err(ReadJoinError::Other);
    }
    let (rows, rest) = join_lists_read(alloc, bound, decl, kept, rest)?;
    Ok((rows, rest))
}

// The index lists in front, behind their number, joined to those that are kept.
fn join_lists_read<'f>(
    alloc: Global,
    bound: u64,
    table: &TableDecl,
    kept: TableRows,
    flat: &'f [u8],
) -> Result<(TableRows, &'f [u8]), SavedError>
    requires can { CanTakeMore bound (seen_table table.now) kept }
    ensures value { IfOk result (λ r. ReadsJoined bound (seen_table table.now) kept flat.now r.0 r.1.now) }
    ensures stopped { IfErr result (λ error. Stops (entries_at bound (seen_table table.now) flat.now) error) }
{
    let (count, mut rest) = read_count(flat)?;
    if !may_have(bound, count) {
        return Err(SavedError::NotSaved);
    }
    let mut walk = walk_over(alloc, kept)?;
    for _ in 0..count {
        let (entry, after) = read_entry(alloc, bound, table, rest)?;
        if !is_above_last(&walk.joined, &entry) {
            return Err(SavedError::NotSaved);
        }
        let next = join_entry(alloc, table.kind, table.limit, entry, walk)?;
        walk = next;
        rest = after;
    }
    let joined = join_rest(alloc, table.kind, table.limit, walk)?;
    Ok((joined, rest))
}

// Whether a table may have so many index lists.
fn may_have(bound: u64, count: u64) -> bool
    ensures value { result ≡ (not (bound == 0) || count == 0) }
{
    bound != 0 || count == 0
}
