//! One level of a type.
ghost use Rattle.std.specs.Prelude.{◌≡◌};
ghost use Rattle.sz_types.specs.Seen.{seen};
ghost use Rattle.sz_types.specs.Kinds.{shape_of_kind, is_int};

use crate::ty::{Field, Ty};

/// What a type is, with the types inside it.
#[derive(Clone, Copy)]
pub enum Kind<'t> {
    Bool,
    Int,
    Time,
    Str,
    Bytes,
    Array(&'t Ty),
    Map(&'t Ty, &'t Ty),
    Tuple(&'t [Field]),
    Proto(&'t [Field]),
}

/// What this type is.
pub fn type_kind(ty: &Ty) -> Kind<'_>
    ensures value { seen ty.now ≡ shape_of_kind result }
{
    match ty {
        Ty::Bool => Kind::Bool,
        Ty::Int => Kind::Int,
        Ty::Time => Kind::Time,
        Ty::Str => Kind::Str,
        Ty::Bytes => Kind::Bytes,
        Ty::Array(element) => Kind::Array(element),
        Ty::Map(key, value) => Kind::Map(key, value),
        Ty::Tuple(fields) => Kind::Tuple(fields.as_slice()),
        Ty::Proto(fields) => Kind::Proto(fields.as_slice()),
    }
}

/// Whether the type is that of whole numbers.
pub fn is_int(ty: &Ty) -> bool
    ensures value { result ≡ is_int (seen ty.now) }
{
    matches!(type_kind(ty), Kind::Int)
}
