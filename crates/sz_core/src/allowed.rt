//! Whether the parts of a declaration go together.
ghost use Rattle.std.specs.Prelude.{◌≡◌, map as each};
ghost use Rattle.std.specs.Option.{option_map};
ghost use Rattle.sz_types.specs.Data.{fields_of};
ghost use Rattle.sz_types.specs.Seen.{seen, seen_field};
ghost use Rattle.sz_types.specs.SeenTables.{seen_table};
ghost use Rattle.sz_core.specs.WellFormed as rules;

use sz_types::{Field, Kind, TableDecl, TableKind, Ty, is_int, type_kind};

/// Whether a table's kind, limit, element and weight go together.
pub fn is_allowed(table: &TableDecl) -> bool
    ensures value { result ≡ rules.is_allowed (seen_table table.now) }
{
    let limit = table.limit;
    match table.kind {
        TableKind::Sum => limit == 0 && has_sum(&table.element) && table.weight.is_none(),
        TableKind::Maximum => is_between(1, 10_000, limit) && is_weight(&table.weight),
        TableKind::Minimum => is_between(1, 10_000, limit) && is_weight(&table.weight),
        TableKind::Set => is_between(1, 1_000_000, limit) && table.weight.is_none(),
        TableKind::Collection => limit == 0 && table.weight.is_none(),
    }
}

// Whether values of the type can be summed.
fn has_sum(ty: &Ty) -> bool
    ensures value { result ≡ rules.has_sum (seen ty.now) }
{
    match type_kind(ty) {
        Kind::Int => true,
        Kind::Tuple(fields) | Kind::Proto(fields) => are_whole_numbers(fields),
        _ => false,
    }
}

// Whether each field is a whole number.
fn are_whole_numbers(fields: &[Field]) -> bool
    ensures value { result ≡ rules.are_whole_numbers (fields_of (each seen_field fields.now)) }
{
    for field in fields {
        if !is_int(&field.ty) {
            return false;
        }
    }
    true
}

// Whether the type can be that of weights, if there is one.
fn is_weight(weight: &Option<Ty>) -> bool
    ensures value { result ≡ rules.is_weight (option_map seen weight.now) }
{
    match weight {
        Some(ty) => matches!(type_kind(ty), Kind::Int | Kind::Time),
        None => false,
    }
}

// Whether the limit lies between the two, both counted in.
fn is_between(least: u32, most: u32, limit: u32) -> bool
    ensures value { result ≡ rules.is_between least most limit }
{
    least <= limit && limit <= most
}
