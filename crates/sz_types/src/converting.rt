//! Which type converts to which.
ghost use Rattle.std.specs.Prelude.{◌≡◌};
ghost use Rattle.sz_types.specs.Conversions.{converts_to, has_row};
ghost use Rattle.sz_types.specs.Seen.{seen};

use crate::comparing::types_agree;
use crate::ty::Ty;

/// Whether a value of the type `from` may be converted to the type `to`: a type converts to itself, strings, bytes and
/// truth values to whole numbers, bytes to strings and strings to bytes, whole numbers and truth values to strings,
/// whole numbers and times to each other, and bytes to each proto type.
pub fn converts(from: &Ty, to: &Ty) -> bool
    ensures value { result ≡ converts_to (seen from.now) (seen to.now) }
{
    has_conversion(from, to) || types_agree(from, to)
}

// Whether there is a conversion between two types that differ.
fn has_conversion(from: &Ty, to: &Ty) -> bool
    ensures value { result ≡ has_row (seen from.now) (seen to.now) }
{
    matches!(
        (from, to),
        (Ty::Str | Ty::Bytes | Ty::Bool | Ty::Time, Ty::Int)
            | (Ty::Bytes | Ty::Int | Ty::Bool, Ty::Str)
            | (Ty::Str, Ty::Bytes)
            | (Ty::Int, Ty::Time)
            | (Ty::Bytes, Ty::Proto(_))
    )
}
