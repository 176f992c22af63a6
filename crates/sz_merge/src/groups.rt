//! Groups of files that were joined.
ghost use Rattle.std.specs.Prelude.{◌≡◌, ◌≢◌, ◌≤◌, ◌++◌, ◌∷◌, [], vec_len, IfOk, IfSome, IfNone};
ghost use Rattle.sz_merge.specs.JoiningLaws.{Gives};
ghost use Rattle.sz_merge.specs.Together.{CanBeTogether};
ghost use Rattle.sz_merge.specs.Groups.{held_by, Regroups};

use std::alloc::Global;
use sz_save::{NoMemory, Saved, join_owned};
use sz_total::IndexedRows;

/// What some files that stand side by side hold together.
#[derive(Drop)]
pub(crate) struct Group {
    /// What they hold.
    pub(crate) saved: Saved,
    /// How many rows that is.
    pub(crate) rows: usize,
    /// How many bytes its first file has for a row, or 0 where it began with no file.
    pub(crate) width: usize,
}

// The groups with one more behind them. It is joined to the last one as long as that has at most twice as many rows,
// so that each group has more than twice the rows of the next: all together have less than twice those of the first; no clause says so.
pub(crate) fn with_group(
    alloc: Global,
    groups: Vec<Group>,
    group: Group,
) -> Result<Vec<Group>, NoMemory>
    requires can { CanBeTogether (held_by groups.items ++ group.saved ∷ []) }
    ensures value { IfOk result (λ now. Regroups (held_by groups.items ++ group.saved ∷ []) (held_by now.items)) }
    ensures some { IfOk result (λ now. held_by now.items ≢ []) }
{
    let mut groups = groups;
    let mut group = group;
    while let Some(last) = take_small(&mut groups, group.rows) {
        group = joined(alloc, last, group)?;
    }
    groups.push(group)?;
    Ok(groups)
}

// How many rows a state has in all its tables.
pub(crate) fn row_count(saved: &Saved) -> usize {
    let mut count: usize = 0;
    for entries in saved.tables().as_slice() {
        count = count.saturating_add(rows_under(entries.as_slice()));
    }
    count
}

// How many rows there are under index lists.
fn rows_under(entries: &[IndexedRows]) -> usize {
    let mut count: usize = 0;
    for entry in entries {
        count = count.saturating_add(entry.rows.len());
    }
    count
}

// Takes the last group, if it has at most twice as many rows as this.
fn take_small(groups: &mut Vec<Group>, rows: usize) -> Option<Group>
    ensures some { IfSome result (λ last. groups.old.items ≡ groups.new.items ++ last ∷ []) }
    ensures none { IfNone result (groups.new.items ≡ groups.old.items) }
{
    let is_small = match groups.last() {
        Some(last) => is_small(last, rows),
        None => false,
    };
    if is_small { groups.pop() } else { None }
}

// Whether a group has at most twice as many rows as this.
pub(crate) fn is_small(group: &Group, rows: usize) -> bool {
    group.rows.saturating_sub(rows) <= rows
}

// Both groups as one.
fn joined(alloc: Global, front: Group, back: Group) -> Result<Group, NoMemory>
    requires can { CanBeTogether (front.saved ∷ back.saved ∷ []) }
    ensures value { IfOk result (λ both. Gives front.saved back.saved both.saved) }
{
    let width = front.width;
    let saved = both_saved(alloc, front.saved, back.saved)?;
    let rows = row_count(&saved);
    Ok(Group { saved, rows, width })
}

// What two states hold together that can be joined.
fn both_saved(alloc: Global, front: Saved, back: Saved) -> Result<Saved, NoMemory>
    requires can { CanBeTogether (front ∷ back ∷ []) }
    ensures value { IfOk result (λ both. Gives front back both) }
{
    let both = join_owned(alloc, front, back)?;
    let _ = both.bound();
    Ok(both)
}

// What all groups hold together.
pub(crate) fn join_all(alloc: Global, groups: Vec<Group>) -> Result<Saved, NoMemory>
    requires can { CanBeTogether (held_by groups.items) }
    requires some { 1 ≤ vec_len groups }
    ensures value { IfOk result (λ all. Regroups (held_by groups.items) (all ∷ [])) }
{
    let mut groups = groups;
    let Some(last) = groups.pop() else {
        unreachable!()
    };
    let mut all = last;
    while let Some(group) = groups.pop() {
        all = joined(alloc, group, all)?;
    }
    let Group {
        saved,
        rows: _,
        width: _,
    } = all;
    Ok(saved)
}
