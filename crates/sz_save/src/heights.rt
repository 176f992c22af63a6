//! How many levels the types of tables have.
ghost use Rattle.std.specs.Prelude.{◌≡◌, nat_le, map};
ghost use Rattle.sz_types.specs.Data.{fields_of};
ghost use Rattle.sz_types.specs.Seen.{seen, seen_field};
ghost use Rattle.sz_types.specs.SeenTables.{seen_table};
ghost use Rattle.sz_save_format.specs.Types.{height, tallest};
ghost use Rattle.sz_save.specs.Saving as saving;

use sz_types::{Field, TableDecl, Ty};

/// The most levels of a type in a saved file.
const MOST: u32 = 256;

/// Whether the types of the table's elements and indexes have at most 256 levels, which a saved file can hold. A basic type is one
/// level, and so is a message without fields; any other type has one level more than the highest type in it.
pub fn is_low(table: &TableDecl) -> bool
    ensures value { result ≡ saving.is_low (seen_table table.now) }
{
    is_type_low(&table.element, MOST) && are_low(table.indexes.as_slice())
}

// Whether each of the types has at most 256 levels.
fn are_low(types: &[Ty]) -> bool
    ensures value { result ≡ saving.are_low (map seen types.now) }
{
    for ty in types {
        if !is_type_low(ty, MOST) {
            return false;
        }
    }
    true
}

// Whether the type has at most so many levels.
#[cycle(low)]
fn is_type_low(ty: &Ty, most: u32) -> bool
    ensures value { result ≡ nat_le (height (seen ty.now)) most }
{
    if most == 0 {
        return false;
    }
    match ty {
        Ty::Bool | Ty::Int | Ty::Time | Ty::Str | Ty::Bytes => true,
        Ty::Array(element) => is_type_low(element, most - 1),
        Ty::Map(key, value) => is_type_low(key, most - 1) && is_type_low(value, most - 1),
        Ty::Tuple(fields) | Ty::Proto(fields) => are_fields_low(fields.as_slice(), most - 1),
    }
}

// Whether the types of the fields have at most so many levels.
#[cycle(low)]
fn are_fields_low(fields: &[Field], most: u32) -> bool
    ensures value { result ≡ nat_le (tallest (fields_of (map seen_field fields.now))) most }
{
    for field in fields {
        if !is_type_low(&field.ty, most) {
            return false;
        }
    }
    true
}
