//! Copies of types, fields and declarations.
ghost use Rattle.std.specs.Prelude.{◌≡◌, map, IfOk};
ghost use Rattle.std.specs.Option.{option_map};
ghost use Rattle.sz_types.specs.Seen.{seen, seen_field, seen_fields};
ghost use Rattle.sz_types.specs.SeenTables.{seen_table};

use crate::NoMemory;
use crate::table::TableDecl;
use crate::text::Text;
use crate::ty::{Field, Fields, Ty};
use crate::tys::Tys;
use std::alloc::Global;
use std::sync::Arc;

/// A copy of the type, which shares the fields in it.
pub fn copy_ty(alloc: Global, ty: &Ty) -> Result<Ty, NoMemory>
    ensures value { IfOk result (λ made. seen made ≡ seen ty.now) }
{
    match ty {
        Ty::Bool => Ok(Ty::Bool),
        Ty::Int => Ok(Ty::Int),
        Ty::Time => Ok(Ty::Time),
        Ty::Str => Ok(Ty::Str),
        Ty::Bytes => Ok(Ty::Bytes),
        Ty::Array(element) => Ok(Ty::Array(Box::new(alloc, copy_ty(alloc, element)?)?)),
        Ty::Map(key, value) => {
            let key = Box::new(alloc, copy_ty(alloc, key)?)?;
            let value = Box::new(alloc, copy_ty(alloc, value)?)?;
            Ok(Ty::Map(key, value))
        }
        Ty::Tuple(fields) => Ok(Ty::Tuple(copy_fields(fields)?)),
        Ty::Proto(fields) => Ok(Ty::Proto(copy_fields(fields)?)),
    }
}

/// A copy of the fields, which shares them and takes no memory.
pub fn copy_fields(fields: &Fields) -> Result<Fields, NoMemory>
    ensures value { IfOk result (λ made. seen_fields made ≡ seen_fields fields.now) }
{
    Ok(Fields {
        fields: Arc::try_clone(&fields.fields)?,
    })
}

// A copy of each field.
pub(crate) fn copy_list(alloc: Global, fields: &[Field]) -> Result<Vec<Field>, NoMemory>
    ensures value { IfOk result (λ made. map seen_field made.items ≡ map seen_field fields.now) }
{
    let mut made = Vec::with_capacity(alloc, fields.len())?;
    for field in fields {
        made.push(copy_field(alloc, field)?)?;
    }
    Ok(made)
}

// A copy of the field.
fn copy_field(alloc: Global, field: &Field) -> Result<Field, NoMemory>
    ensures value { IfOk result (λ made. seen_field made ≡ seen_field field.now) }
{
    let name = Text::from_str(alloc, field.name.as_str())?;
    let ty = copy_ty(alloc, &field.ty)?;
    Ok(Field {
        name,
        ty,
        number: field.number,
        code: field.code,
    })
}

/// A copy of the types.
pub fn copy_tys(alloc: Global, types: &Tys) -> Result<Tys, NoMemory>
    ensures value { IfOk result (λ made. made ≡ types.now) }
{
    let mut made = Vec::with_capacity(alloc, types.len())?;
    for ty in types.as_slice() {
        made.push(copy_ty(alloc, ty)?)?;
    }
    Ok(Tys::from_vec(made))
}

/// A copy of the declaration.
pub fn copy_table(alloc: Global, table: &TableDecl) -> Result<TableDecl, NoMemory>
    ensures value { IfOk result (λ made. seen_table made ≡ seen_table table.now) }
{
    let name = Text::from_str(alloc, table.name.as_str())?;
    let indexes = copy_tys(alloc, &table.indexes)?;
    let element = copy_ty(alloc, &table.element)?;
    let weight = copy_weight(alloc, &table.weight)?;
    Ok(TableDecl {
        name,
        kind: table.kind,
        limit: table.limit,
        indexes,
        element,
        weight,
    })
}

// A copy of the type of the weights, where there is one.
fn copy_weight(alloc: Global, weight: &Option<Ty>) -> Result<Option<Ty>, NoMemory>
    ensures value { IfOk result (λ made. option_map seen made ≡ option_map seen weight.now) }
{
    match weight {
        Some(ty) => Ok(Some(copy_ty(alloc, ty)?)),
        None => Ok(None),
    }
}
