//! The index lists that are kept, walked over as others come that are joined to them, in ascending order.
ghost use Rattle.std.specs.Prelude.{◌≡◌, ◌≢◌, ◌++◌, [], ◌∷◌, Some, IfOk, IfSome, IfNone};
ghost use Rattle.std.specs.List.{AllByRecursion};
ghost use Rattle.std.specs.declared.cmp.Ordering.TheVariants.{Less, Equal};
ghost use Rattle.sz_tabs.specs.Rows.{compare_indexes};
ghost use Rattle.sz_save.specs.Walk.{compare_firsts, joined_entries, RowsCanJoin, CanJoin, HasCountedRows, AreCounted};
ghost use Rattle.sz_save.specs.Reading.{last_indexes, is_above, GoesOn};

use crate::entries::{join_alone, join_both, join_entries, join_other_alone};
use crate::order::order_lists;
use std::alloc::Global;
use std::collections::VecDeque;
use sz_tabs::NoMemory;
use sz_total::{IndexedRows, TableRows};
use sz_types::TableKind;

// The index lists up to a place, joined, and those behind it that are kept.
#[derive(Drop)]
pub(crate) struct Walk {
    pub(crate) joined: TableRows,
    pub(crate) left: VecDeque<IndexedRows>,
}

// The walk from the first index list on.
pub(crate) fn walk_over(alloc: Global, kept: TableRows) -> Result<Walk, NoMemory>
    ensures joined { IfOk result (λ walk. walk.joined ≡ []) }
    ensures left { IfOk result (λ walk. walk.left.items ≡ kept) }
{
    let joined = TableRows::with_capacity(alloc, kept.len())?;
    Ok(Walk {
        joined,
        left: VecDeque::from_vec(kept.into_vec()),
    })
}

// Joins an index list at its place.
pub(crate) fn join_entry(
    alloc: Global,
    kind: TableKind,
    limit: u32,
    entry: IndexedRows,
    walk: Walk,
) -> Result<Walk, NoMemory>
    requires can { CanJoin kind walk.left.items (entry ∷ []) }
    ensures value { IfOk result (λ now. GoesOn kind limit (entry ∷ []) walk.joined walk.left.items [] now.joined now.left.items) }
    ensures last { IfOk result (λ now. last_indexes now.joined ≡ Some entry.indexes) }
{
    let passed = pass_lesser(alloc, kind, limit, &entry, walk)?;
    let now = join_here(alloc, kind, limit, entry, passed)?;
    Ok(now)
}

// Passes over the kept index lists that are less than this one.
fn pass_lesser(
    alloc: Global,
    kind: TableKind,
    limit: u32,
    entry: &IndexedRows,
    walk: Walk,
) -> Result<Walk, NoMemory>
    requires can { CanJoin kind walk.left.items (entry.now ∷ []) }
    ensures value { IfOk result (λ now. GoesOn kind limit (entry.now ∷ []) walk.joined walk.left.items (entry.now ∷ []) now.joined now.left.items) }
    ensures can { IfOk result (λ now. CanJoin kind now.left.items (entry.now ∷ [])) }
    ensures past { IfOk result (λ now. compare_firsts now.left.items (entry.now ∷ []) ≢ Some Less) }
{
    let Walk {
        mut joined,
        mut left,
    } = walk;
    while let Some(kept) = take_lesser(entry, &mut left) {
        let both = join_alone(alloc, kind, limit, kept)?;
        joined.push(both)?;
    }
    Ok(Walk { joined, left })
}

// Takes the first kept index list, if it is less than this one.
fn take_lesser(entry: &IndexedRows, left: &mut VecDeque<IndexedRows>) -> Option<IndexedRows>
    ensures some { IfSome result (λ kept. (left.old.items ≡ kept ∷ left.new.items) × (compare_indexes kept.indexes entry.now.indexes ≡ Less)) }
    ensures none { IfNone result ((left.new.items ≡ left.old.items) × (compare_firsts left.old.items (entry.now ∷ []) ≢ Some Less)) }
{
    match left.front() {
        Some(kept) if order_lists(&kept.indexes, &entry.indexes).is_lt() => left.pop_front(),
        _ => None,
    }
}

// Joins an index list where no lesser one is left.
fn join_here(
    alloc: Global,
    kind: TableKind,
    limit: u32,
    entry: IndexedRows,
    walk: Walk,
) -> Result<Walk, NoMemory>
    requires can { CanJoin kind walk.left.items (entry ∷ []) }
    requires past { compare_firsts walk.left.items (entry ∷ []) ≢ Some Less }
    ensures value { IfOk result (λ now. GoesOn kind limit (entry ∷ []) walk.joined walk.left.items [] now.joined now.left.items) }
    ensures last { IfOk result (λ now. last_indexes now.joined ≡ Some entry.indexes) }
{
    let Walk { joined, mut left } = walk;
    match take_equal(&entry, &mut left) {
        Some(kept) => join_kept(alloc, kind, limit, kept, entry, Walk { joined, left }),
        None => join_new(alloc, kind, limit, entry, Walk { joined, left }),
    }
}

// Joins an index list to the kept one that is the same, which was the first that was left.
fn join_kept(
    alloc: Global,
    kind: TableKind,
    limit: u32,
    kept: IndexedRows,
    entry: IndexedRows,
    walk: Walk,
) -> Result<Walk, NoMemory>
    requires can { RowsCanJoin kind kept.rows entry.rows }
    requires tie { compare_indexes kept.indexes entry.indexes ≡ Equal }
    ensures value { IfOk result (λ now. GoesOn kind limit (entry ∷ []) walk.joined (kept ∷ walk.left.items) [] now.joined now.left.items) }
    ensures last { IfOk result (λ now. last_indexes now.joined ≡ Some entry.indexes) }
{
    let Walk { mut joined, left } = walk;
    let both = join_both(alloc, kind, limit, kept, entry)?;
    joined.push(both)?;
    Ok(Walk { joined, left })
}

// Joins an index list that isn't kept.
fn join_new(
    alloc: Global,
    kind: TableKind,
    limit: u32,
    entry: IndexedRows,
    walk: Walk,
) -> Result<Walk, NoMemory>
    requires can { RowsCanJoin kind [] entry.rows }
    requires past { compare_firsts walk.left.items (entry ∷ []) ≢ Some Less }
    requires other { compare_firsts walk.left.items (entry ∷ []) ≢ Some Equal }
    ensures value { IfOk result (λ now. GoesOn kind limit (entry ∷ []) walk.joined walk.left.items [] now.joined now.left.items) }
    ensures last { IfOk result (λ now. last_indexes now.joined ≡ Some entry.indexes) }
{
    let Walk { mut joined, left } = walk;
    let both = join_other_alone(alloc, kind, limit, entry)?;
    joined.push(both)?;
    Ok(Walk { joined, left })
}

// Takes the first kept index list, if it is this one.
fn take_equal(entry: &IndexedRows, left: &mut VecDeque<IndexedRows>) -> Option<IndexedRows>
    ensures some { IfSome result (λ kept. (left.old.items ≡ kept ∷ left.new.items) × (compare_indexes kept.indexes entry.now.indexes ≡ Equal)) }
    ensures none { IfNone result ((left.new.items ≡ left.old.items) × (compare_firsts left.old.items (entry.now ∷ []) ≢ Some Equal)) }
{
    match left.front() {
        Some(kept) if order_lists(&kept.indexes, &entry.indexes).is_eq() => left.pop_front(),
        _ => None,
    }
}

// Joins what is left where no others come.
pub(crate) fn join_rest(
    alloc: Global,
    kind: TableKind,
    limit: u32,
    walk: Walk,
) -> Result<TableRows, NoMemory>
    requires can { CanJoin kind walk.left.items [] }
    requires few { AllByRecursion HasCountedRows walk.joined }
    ensures value { IfOk result (λ all. all ≡ walk.joined ++ joined_entries kind limit walk.left.items []) }
    ensures counted { IfOk result (λ all. AreCounted all) }
{
    let Walk { mut joined, left } = walk;
    let kept = TableRows::from_vec(left.into_vec());
    let rest = join_entries(alloc, kind, limit, kept, TableRows::new(alloc))?;
    joined.append(rest)?;
    let _ = joined.len();
    Ok(joined)
}

// Whether an index list is above the last that was joined, if there is one.
#[tactic(auto, using(crate::proofs::PassingLemmas::last_at))]
pub(crate) fn is_above_last(joined: &TableRows, entry: &IndexedRows) -> bool
    ensures value { result ≡ is_above (last_indexes joined.now) entry.now.indexes }
{
    let count = joined.len();
    if count == 0 {
        return true;
    }
    order_lists(&joined.get(count - 1).indexes, &entry.indexes).is_lt()
}
