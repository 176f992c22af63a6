//! The rows of what is kept, in order.
ghost use Rattle.std.specs.Prelude.{◌≡◌, map, IfOk};
ghost use Rattle.sz_tabs.specs.Rows.{weighted_row};
ghost use Rattle.sz_tabs.specs.Sorting.{sorted};
ghost use Rattle.sz_extreme.specs.Ranks.{by_rank, emit_of, seen_rank};

use crate::rank::turned;
use std::alloc::Global;
use sz_tabs::{NoMemory, Row, RowValue, Rows};
use sz_types::TableKind;
use sz_value::{Value, copy};

// A row for each value with its weight, the least rank first.
pub(crate) fn rows_of(
    alloc: Global,
    kind: TableKind,
    kept: &[(i64, Value)],
) -> Result<Rows, NoMemory>
    ensures value { IfOk result (λ rows. rows ≡ map weighted_row (map (emit_of kind) (sorted by_rank (map seen_rank kept.now)))) }
{
    let ranked = in_order(alloc, kept)?;
    row_by_row(alloc, kind, ranked)
}

// Copies of the values with their ranks, in order.
fn in_order(alloc: Global, kept: &[(i64, Value)]) -> Result<Vec<(i64, Value)>, NoMemory>
    ensures value { IfOk result (λ made. map seen_rank made.items ≡ sorted by_rank (map seen_rank kept.now)) }
{
    let mut made = copied(alloc, kept)?;
    made.sort()?;
    Ok(made)
}

// A copy of each value with its rank.
fn copied(alloc: Global, kept: &[(i64, Value)]) -> Result<Vec<(i64, Value)>, NoMemory>
    ensures value { IfOk result (λ made. map seen_rank made.items ≡ map seen_rank kept.now) }
{
    let mut made = Vec::with_capacity(alloc, kept.len())?;
    for ranked in kept {
        let value = copy(alloc, &ranked.1)?;
        made.push((ranked.0, value))?;
    }
    Ok(made)
}

// A row for each value with its weight.
fn row_by_row(alloc: Global, kind: TableKind, ranked: Vec<(i64, Value)>) -> Result<Rows, NoMemory>
    ensures value { IfOk result (λ rows. rows ≡ map weighted_row (map (emit_of kind) (map seen_rank ranked.items))) }
{
    let mut rows = Rows::with_capacity(alloc, ranked.len())?;
    for (rank, value) in ranked {
        rows.push(Row {
            value: RowValue::One(value),
            weight: Some(turned(kind, rank)),
        })?;
    }
    Ok(rows)
}
