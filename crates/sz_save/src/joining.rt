//! Two saved states joined.
ghost use Rattle.std.specs.Prelude.{◌≡◌, ◌≢◌, ◌+◌, ◌<◌, ◌≤◌, ◌^◌, ◌∷◌, length, IfOk, IsErrOf};
ghost use Rattle.std.specs.List.{AllByRecursion};
ghost use Rattle.sz_types.specs.SeenTables.{seen_table};
ghost use Rattle.sz_save.specs.declared.joining.JoinError.TheVariants as errors;
ghost use Rattle.sz_save.specs.Joined.{Joins};
ghost use Rattle.sz_save.specs.Walk.{joined_entries, joined_tables, CanJoin, CanJoinAll, AreCounted};

use crate::copied::copied_saved;
use crate::declared::same_decls;
use crate::entries::join_entries;
use std::alloc::{AllocError, Global};
use std::collections::VecDeque;
use sz_print::SavedTables;
use sz_save_format::{NoMemory, Saved};
use sz_total::TableRows;
use sz_types::{TableDecl, TableDecls};

/// The greatest bound.
const MOST: u64 = 1 << 63;

/// Why `join` gives no saved state.
#[derive(Debug, Drop)]
pub enum JoinError {
    /// The declarations differ.
    Other,
    /// The bounds together are too large.
    Limit,
    /// Memory ran out.
    NoMemory,
}

impl From<AllocError> for JoinError {
    ghost use Rattle.std.specs.Prelude.{◌≡◌};
    ghost use Rattle.sz_save.specs.declared.joining.JoinError.TheVariants.{NoMemory};

    ghost from_gives = { λ _ e. e ≡ NoMemory };

    fn from(_error: AllocError) -> JoinError {
        JoinError::NoMemory
    }
}

/// What both hold together: the bounds added, and under each index list of a table the rows of both joined.
pub fn join(alloc: Global, one: &Saved, other: &Saved) -> Result<Saved, JoinError>
    ensures value { IfOk result (λ both. Joins one.now other.now both) }
    ensures differ { IsErrOf result errors.Other → other.now.decls ≢ one.now.decls }
    ensures same { IsErrOf result errors.Limit → other.now.decls ≡ one.now.decls }
    ensures limit { IsErrOf result errors.Limit → 2 ^ 63 < one.now.bound + other.now.bound }
{
    if !same_decls(other.decls(), one.decls()) {
        return Err(JoinError::Other);
    }
    if one.bound() > MOST - other.bound() {
        return Err(JoinError::Limit);
    }
    Ok(join_same(alloc, one, other)?)
}

// The same of two with the same declarations, whose bounds together aren't too large.
fn join_same(alloc: Global, one: &Saved, other: &Saved) -> Result<Saved, NoMemory>
    requires same { other.now.decls ≡ one.now.decls }
    requires low { one.now.bound + other.now.bound ≤ 2 ^ 63 }
    ensures value { IfOk result (λ both. Joins one.now other.now both) }
{
    let one = copied_saved(alloc, one)?;
    let other = copied_saved(alloc, other)?;
    join_owned(alloc, one, other)
}

/// What both hold together, of two that are given up: what they hold is moved, and not copied. They have the same declarations, and their
/// bounds together aren't too large.
pub fn join_owned(alloc: Global, one: Saved, other: Saved) -> Result<Saved, NoMemory>
    requires same { other.decls ≡ one.decls }
    requires low { one.bound + other.bound ≤ 2 ^ 63 }
    ensures value { IfOk result (λ both. Joins one other both) }
{
    let bound = one.bound() + other.bound();
    let (decls, tables) = one.into_parts();
    let (_, others) = other.into_parts();
    let joined = join_tables(alloc, &decls, tables, others)?;
    Ok(Saved::new(bound, decls, joined))
}

// Each table of both sides.
fn join_tables(
    alloc: Global,
    decls: &TableDecls,
    tables: SavedTables,
    others: SavedTables,
) -> Result<SavedTables, NoMemory>
    requires as_many { length tables ≡ length decls.now }
    requires as_many_others { length others ≡ length decls.now }
    requires can { CanJoinAll decls.now tables others }
    ensures value { IfOk result (λ joined. joined ≡ joined_tables decls.now tables others) }
    ensures counted { IfOk result (λ joined. AllByRecursion AreCounted joined) }
{
    let mut joined = SavedTables::new(alloc);
    let mut rest = VecDeque::from_vec(tables.into_vec());
    let mut left = VecDeque::from_vec(others.into_vec());
    for i in 0..decls.len() {
        let rows = take_table(&mut rest);
        let more = take_table(&mut left);
        let both = join_table(alloc, decls.get(i), rows, more)?;
        joined.push(both)?;
    }
    Ok(joined)
}

// Takes the first table, of which there is one.
pub(crate) fn take_table(tables: &mut VecDeque<TableRows>) -> TableRows
    requires some { 1 ≤ length tables.old.items }
    ensures value { tables.old.items ≡ result ∷ tables.new.items }
{
    let Some(rows) = tables.pop_front() else {
        unreachable!()
    };
    rows
}

// One table of both sides.
fn join_table(
    alloc: Global,
    decl: &TableDecl,
    rows: TableRows,
    others: TableRows,
) -> Result<TableRows, NoMemory>
    requires can { CanJoin (seen_table decl.now).kind rows others }
    ensures value { IfOk result (λ joined. joined ≡ joined_entries (seen_table decl.now).kind (seen_table decl.now).limit rows others) }
    ensures counted { IfOk result (λ joined. AreCounted joined) }
{
    join_entries(alloc, decl.kind, decl.limit, rows, others)
}
