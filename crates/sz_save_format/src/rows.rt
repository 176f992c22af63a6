//! The rows under an index list, read from the front of bytes.
ghost use Rattle.std.specs.Prelude.{◌≡◌, false, ◌-◌, ◌^◌, ◌∷◌, [], IfOk, IfErr};
ghost use Rattle.std.specs.Int.{w128};
ghost use Rattle.std.specs.Int.RustNames.{FitsSigned};
ghost use Rattle.sz_types.specs.Seen as shapes;
ghost use Rattle.sz_types.specs.declared.table.TableKind.TheVariants as kinds;
ghost use Rattle.sz_tabs.specs.Rows.{overflow_row};
ghost use Rattle.sz_save_format.specs.declared.error.SavedError.TheVariants as errors;
ghost use Rattle.sz_save_format.specs.Entries.{components};
ghost use Rattle.sz_save_format.specs.Decoding.{Reads, many_at, counted_at};
ghost use Rattle.sz_save_format.specs.DecodingRows as decoding;
ghost use Rattle.sz_save_format.specs.DecodingRows.{sum_at, long_counted_at, sum_row_at, rank_at, row_at, few_rows_at, many_rows_at, set_at};

use crate::error::SavedError;
use crate::numbers::{read_byte, read_count, read_length, read_number, read_wide, room_for};
use crate::order::rows_in_order;
use crate::sized::read_sized;
use std::alloc::Global;
use sz_tabs::{Row, RowValue, Rows, Sums};
use sz_types::{Kind, TableKind, Ty, type_kind};

// The rows of a table of sums in front, where no sum is further from 0 than `most`.
#[tactic(auto, unfolding(crate::specs::DecodingRows::sum_row_at))]
pub(crate) fn read_sum_row<'f>(
    alloc: Global,
    most: u128,
    element: &Ty,
    flat: &'f [u8],
) -> Result<(Rows, &'f [u8]), SavedError>
    ensures value { Reads (λ r. (r.0, r.1.now)) (sum_row_at most (components (shapes.seen element.now)) flat.now) result }
{
    let (sums, rest) = read_sums(alloc, most, flat)?;
    if sums.len() != components(element) {
        return Err(SavedError::NotSaved);
    }
    let row = Row {
        value: RowValue::Sums(sums),
        weight: None,
    };
    Ok((Rows::from_vec(vec![in alloc; row]?), rest))
}

// How many sums a table has under an index list, by the type of its elements.
fn components(element: &Ty) -> usize
    ensures value { result ≡ components (shapes.seen element.now) }
{
    match type_kind(element) {
        Kind::Tuple(fields) | Kind::Proto(fields) => fields.len(),
        _ => 1,
    }
}

// The sums in front, behind their number.
#[tactic(auto, unfolding(crate::specs::Decoding::counted_at))]
fn read_sums<'f>(alloc: Global, most: u128, flat: &'f [u8]) -> Result<(Sums, &'f [u8]), SavedError>
    ensures value { Reads (λ r. (r.0, r.1.now)) (counted_at (sum_at most) flat.now) result }
{
    let (count, mut rest) = read_length(flat)?;
    let mut sums = Sums::with_capacity(alloc, room_for(count as u64, 16, rest))?;
    for _ in 0..count {
        let (sum, after) = read_sum(most, rest)?;
        sums.push(sum)?;
        rest = after;
    }
    Ok((sums, rest))
}

// The sum in front.
#[tactic(auto, unfolding(crate::specs::DecodingRows::sum_at))]
fn read_sum(most: u128, flat: &[u8]) -> Result<(i128, &[u8]), SavedError>
    ensures value { Reads (λ r. (r.0, r.1.now)) (sum_at most flat.now) result }
    ensures fits { IfOk result (λ r. FitsSigned w128 r.0) }
{
    let (bits, rest) = read_wide(flat)?;
    let sum = bits.cast_signed();
    if sum.unsigned_abs() > most {
        return Err(SavedError::NotSaved);
    }
    Ok((sum, rest))
}

// The rows of a set in front.
#[tactic(auto, unfolding(crate::specs::DecodingRows::set_at))]
pub(crate) fn read_set<'f>(
    alloc: Global,
    limit: u32,
    element: &Ty,
    flat: &'f [u8],
) -> Result<(Rows, &'f [u8]), SavedError>
    ensures value { Reads (λ r. (r.0, r.1.now)) (set_at limit (shapes.seen element.now) flat.now) result }
{
    let (byte, rest) = read_byte(flat)?;
    match byte {
        0 => read_few_rows(alloc, TableKind::Set, false, limit, element, rest),
        1 => Ok((overflow_rows(alloc)?, rest)),
        _ => Err(SavedError::NotSaved),
    }
}

// The row of a set with too many values.
fn overflow_rows(alloc: Global) -> Result<Rows, SavedError>
    ensures value { IfOk result (λ rows. rows ≡ overflow_row ∷ []) }
    ensures memory { IfErr result (λ e. e ≡ errors.NoMemory) }
{
    let row = Row {
        value: RowValue::Overflow,
        weight: None,
    };
    Ok(Rows::from_vec(vec![in alloc; row]?))
}

// The rows in front, behind their number in 4 bytes.
#[tactic(auto, unfolding(crate::specs::DecodingRows::few_rows_at))]
pub(crate) fn read_few_rows<'f>(
    alloc: Global,
    kind: TableKind,
    ranked: bool,
    limit: u32,
    element: &Ty,
    flat: &'f [u8],
) -> Result<(Rows, &'f [u8]), SavedError>
    ensures value { Reads (λ r. (r.0, r.1.now)) (few_rows_at kind ranked limit (shapes.seen element.now) flat.now) result }
{
    let (rows, rest) = read_counted_rows(alloc, ranked, element, flat)?;
    if !are_rows(kind, limit as usize, &rows) {
        return Err(SavedError::NotSaved);
    }
    Ok((rows, rest))
}

// The rows of a collection in front, behind their number in 8 bytes.
#[tactic(auto, unfolding(crate::specs::DecodingRows::many_rows_at))]
pub(crate) fn read_many_rows<'f>(
    alloc: Global,
    element: &Ty,
    flat: &'f [u8],
) -> Result<(Rows, &'f [u8]), SavedError>
    ensures value { Reads (λ r. (r.0, r.1.now)) (many_rows_at kinds.Collection false (2 ^ 64 - 1) (shapes.seen element.now) flat.now) result }
{
    let (rows, rest) = read_long_rows(alloc, element, flat)?;
    if !are_rows(TableKind::Collection, usize::MAX, &rows) {
        return Err(SavedError::NotSaved);
    }
    Ok((rows, rest))
}

// The rows in front, behind their number in 4 bytes, in any order.
#[tactic(auto, unfolding(crate::specs::Decoding::counted_at))]
fn read_counted_rows<'f>(
    alloc: Global,
    ranked: bool,
    element: &Ty,
    flat: &'f [u8],
) -> Result<(Rows, &'f [u8]), SavedError>
    ensures value { Reads (λ r. (r.0, r.1.now)) (counted_at (row_at ranked (shapes.seen element.now)) flat.now) result }
{
    let (count, rest) = read_length(flat)?;
    read_rows(alloc, ranked, element, count as u64, rest)
}

// The rows without weights in front, behind their number in 8 bytes, in any order.
#[tactic(auto, unfolding(crate::specs::DecodingRows::long_counted_at))]
fn read_long_rows<'f>(
    alloc: Global,
    element: &Ty,
    flat: &'f [u8],
) -> Result<(Rows, &'f [u8]), SavedError>
    ensures value { Reads (λ r. (r.0, r.1.now)) (long_counted_at (row_at false (shapes.seen element.now)) flat.now) result }
{
    let (count, rest) = read_count(flat)?;
    read_rows(alloc, false, element, count, rest)
}

// So many rows.
fn read_rows<'f>(
    alloc: Global,
    ranked: bool,
    element: &Ty,
    count: u64,
    flat: &'f [u8],
) -> Result<(Rows, &'f [u8]), SavedError>
    ensures value { Reads (λ r. (r.0, r.1.now)) (many_at (row_at ranked (shapes.seen element.now)) count flat.now) result }
{
    let mut rows = Rows::with_capacity(alloc, room_for(count, 9, flat))?;
    let mut rest = flat;
    for _ in 0..count {
        let (row, after) = read_row(alloc, ranked, element, rest)?;
        rows.push(row)?;
        rest = after;
    }
    Ok((rows, rest))
}

// The row in front, with its weight where there are weights.
#[tactic(auto, unfolding(crate::specs::DecodingRows::row_at))]
fn read_row<'f>(
    alloc: Global,
    ranked: bool,
    element: &Ty,
    flat: &'f [u8],
) -> Result<(Row, &'f [u8]), SavedError>
    ensures value { Reads (λ r. (r.0, r.1.now)) (row_at ranked (shapes.seen element.now) flat.now) result }
{
    let (value, rest) = read_sized(alloc, element, flat)?;
    let (weight, rest) = read_rank(ranked, rest)?;
    Ok((
        Row {
            value: RowValue::One(value),
            weight,
        },
        rest,
    ))
}

// The weight in front, where there are weights.
#[tactic(auto, unfolding(crate::specs::DecodingRows::rank_at))]
fn read_rank(ranked: bool, flat: &[u8]) -> Result<(Option<i64>, &[u8]), SavedError>
    ensures value { Reads (λ r. (r.0, r.1.now)) (rank_at ranked flat.now) result }
{
    if !ranked {
        return Ok((None, flat));
    }
    let (weight, rest) = read_number(flat)?;
    Ok((Some(weight), rest))
}

// Whether these are the rows under an index list: at least one, at most so many, and in the order in which they are printed.
fn are_rows(kind: TableKind, most: usize, rows: &Rows) -> bool
    ensures value { result ≡ decoding.are_rows kind most rows.now }
{
    1 <= rows.len() && rows.len() <= most && rows_in_order(kind, rows.as_slice())
}
