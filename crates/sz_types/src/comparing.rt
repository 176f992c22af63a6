//! When two types are the same.
ghost use Rattle.std.specs.Prelude.{◌≡◌, ◌↔◌, IsTrue};
ghost use Rattle.sz_types.specs.Data.{fields_of};
ghost use Rattle.sz_types.specs.FieldLists.{alike_lists};
ghost use Rattle.sz_types.specs.Same.{alike, alike_field, alike_fields};
ghost use Rattle.sz_types.specs.Seen.{seen, seen_field, seen_fields};

use crate::ty::{Field, Fields, Ty};

/// Whether two types are the same: of one kind, with the same parts. Fields agree in order, and each in its name, its
/// type, its number and its encoding. A tuple and a proto type are never the same.
pub fn same(a: &Ty, b: &Ty) -> bool
    ensures value { IsTrue result ↔ (seen a.now ≡ seen b.now) }
{
    types_agree(a, b)
}

// Whether two types are of one kind and agree in all parts.
#[cycle(agree)]
pub(crate) fn types_agree(a: &Ty, b: &Ty) -> bool
    ensures value { result ≡ alike (seen a.now) (seen b.now) }
{
    match (a, b) {
        (Ty::Bool, Ty::Bool) => true,
        (Ty::Int, Ty::Int) => true,
        (Ty::Time, Ty::Time) => true,
        (Ty::Str, Ty::Str) => true,
        (Ty::Bytes, Ty::Bytes) => true,
        (Ty::Array(a), Ty::Array(b)) => types_agree(a, b),
        (Ty::Map(key, value), Ty::Map(other_key, other)) => {
            types_agree(key, other_key) && types_agree(value, other)
        }
        (Ty::Tuple(a), Ty::Tuple(b)) => fields_agree(a, b),
        (Ty::Proto(a), Ty::Proto(b)) => fields_agree(a, b),
        _ => false,
    }
}

// Whether the fields agree one by one, in order.
#[cycle(agree)]
#[tactic(auto, using(crate::proofs::SeenLemmas::fields_seen))]
fn fields_agree(a: &Fields, b: &Fields) -> bool
    ensures value { result ≡ alike_fields (fields_of (seen_fields a.now)) (fields_of (seen_fields b.now)) }
{
    lists_agree(a.fields.as_slice(), b.fields.as_slice())
}

// Whether the fields of two lists agree one by one.
#[cycle(agree)]
#[tactic(auto, using(crate::proofs::SameLemmas::lists_end, crate::proofs::SameLemmas::lengths_differ))]
fn lists_agree(a: &[Field], b: &[Field]) -> bool
    ensures value { result ≡ alike_lists a.now b.now }
{
    if a.len() != b.len() {
        return false;
    }
    for i in 0..a.len() {
        if !field_agrees(&a[i], &b[i]) {
            return false;
        }
    }
    true
}

// Whether two fields agree in name, type, number and encoding.
#[cycle(agree)]
fn field_agrees(a: &Field, b: &Field) -> bool
    ensures value { result ≡ alike_field (seen_field a.now) (seen_field b.now) }
{
    a.name.as_str() == b.name.as_str()
        && types_agree(&a.ty, &b.ty)
        && a.number == b.number
        && a.code == b.code
}
