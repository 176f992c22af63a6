//! When two programs declare the same tables.
ghost use Rattle.std.specs.Prelude.{◌≡◌, ◌↔◌, IsTrue, map, IfOk};
ghost use Rattle.std.specs.Option.{option_map};
ghost use Rattle.sz_types.specs.Seen.{seen};
ghost use Rattle.sz_types.specs.SeenTables.{seen_table};

use std::alloc::Global;
use sz_types::{NoMemory, TableDecl, TableDecls, Ty, copy_table, same};

/// Whether the declarations are the same: the same tables in the same order.
pub fn same_decls(one: &TableDecls, other: &TableDecls) -> bool
    ensures value { IsTrue result ↔ (one.now ≡ other.now) }
{
    are_same(one.as_slice(), other.as_slice())
}

// Whether the declarations agree one by one.
fn are_same(one: &[TableDecl], other: &[TableDecl]) -> bool
    ensures value { IsTrue result ↔ (map seen_table one.now ≡ map seen_table other.now) }
{
    if one.len() != other.len() {
        return false;
    }
    for i in 0..one.len() {
        if !same_decl(&one[i], &other[i]) {
            return false;
        }
    }
    true
}

// Whether the declarations agree in all parts.
pub(crate) fn same_decl(one: &TableDecl, other: &TableDecl) -> bool
    ensures value { IsTrue result ↔ (seen_table one.now ≡ seen_table other.now) }
{
    one.name.as_str() == other.name.as_str()
        && one.kind == other.kind
        && one.limit == other.limit
        && same_types(one.indexes.as_slice(), other.indexes.as_slice())
        && same(&one.element, &other.element)
        && same_weight(&one.weight, &other.weight)
}

// Whether the types agree one by one.
fn same_types(one: &[Ty], other: &[Ty]) -> bool
    ensures value { IsTrue result ↔ (map seen one.now ≡ map seen other.now) }
{
    if one.len() != other.len() {
        return false;
    }
    for i in 0..one.len() {
        if !same(&one[i], &other[i]) {
            return false;
        }
    }
    true
}

// Whether both have weights of one type, or neither has any.
fn same_weight(one: &Option<Ty>, other: &Option<Ty>) -> bool
    ensures value { IsTrue result ↔ (option_map seen one.now ≡ option_map seen other.now) }
{
    match (one, other) {
        (Some(one), Some(other)) => same(one, other),
        (None, None) => true,
        (Some(_), None) | (None, Some(_)) => false,
    }
}

// The same declarations once more.
pub(crate) fn copied_decls(alloc: Global, decls: &TableDecls) -> Result<TableDecls, NoMemory>
    ensures value { IfOk result (λ copied. copied ≡ decls.now) }
{
    let mut copied = TableDecls::new(alloc);
    for decl in decls.as_slice() {
        copied.push(copy_table(alloc, decl)?)?;
    }
    Ok(copied)
}
