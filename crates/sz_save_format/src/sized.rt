//! Values behind the number of their bytes, read from the front of bytes.
ghost use Rattle.std.specs.Prelude.{map};
ghost use Rattle.sz_types.specs.Seen as shapes;
ghost use Rattle.sz_value.specs.Seen.{seen};
ghost use Rattle.sz_save_format.specs.Decoding.{Reads};
ghost use Rattle.sz_save_format.specs.DecodingRows.{sized_at, indexes_at};

use crate::error::SavedError;
use crate::numbers::read_count;
use crate::values::read_value;
use std::alloc::Global;
use sz_types::Ty;
use sz_value::{List, Value};

// The value of the type in front, behind the number of its bytes.
#[tactic(auto, unfolding(crate::specs::DecodingRows::sized_at))]
pub(crate) fn read_sized<'f>(
    alloc: Global,
    ty: &Ty,
    flat: &'f [u8],
) -> Result<(Value, &'f [u8]), SavedError>
    ensures value { Reads (λ r. (seen r.0, r.1.now)) (sized_at (shapes.seen ty.now) flat.now) result }
{
    let (count, rest) = read_count(flat)?;
    if count > rest.len() as u64 {
        return Err(SavedError::NotSaved);
    }
    let (front, rest) = rest.split_at(count as usize);
    let (value, left) = read_value(alloc, ty, front)?;
    if !left.is_empty() {
        return Err(SavedError::NotSaved);
    }
    Ok((value, rest))
}

// A value of each of the types in front, each behind the number of its bytes.
pub(crate) fn read_indexes<'f>(
    alloc: Global,
    types: &[Ty],
    flat: &'f [u8],
) -> Result<(List, &'f [u8]), SavedError>
    ensures value { Reads (λ r. (r.0, r.1.now)) (indexes_at (map shapes.seen types.now) flat.now) result }
{
    let mut values = List::with_capacity(alloc, types.len())?;
    let mut rest = flat;
    for ty in types {
        let (value, after) = read_sized(alloc, ty, rest)?;
        values.push(value)?;
        rest = after;
    }
    Ok((values, rest))
}
