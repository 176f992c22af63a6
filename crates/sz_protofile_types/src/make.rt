//! Types, made of fields.
ghost use Rattle.std.specs.Prelude.{◌≡◌, ◌++◌, ◌∷◌, [], ℕ, List, map, IfOk, OnOk, option_map, option_to_list, if◌then◌else◌};
ghost use Rattle.std.specs.Str.{bytes_eq};
ghost use Rattle.indexmap.specs.IndexMap.{get_by_text};
ghost use Rattle.sz_types.specs.Data.{array};
ghost use Rattle.sz_types.specs.Seen.{seen, seen_field};
ghost use Rattle.sz_protofile.specs.Names.{unreserved};
ghost use Rattle.sz_protofile.specs.Scalars.{shape_of};
ghost use Rattle.sz_protofile.specs.Fields.{as_field};
ghost use Rattle.sz_protofile_types.specs.Making.{type_in, made_of, added_by, after_field, type_named};
ghost use Rattle.sz_protofile_types.specs.Holding.{seen_found};

use crate::Ranks;
use crate::named::{NamedType, NamedTypes};
use indexmap::IndexMap;
use std::alloc::Global;
use sz_protofile::{FieldIn, PlainKind, Scope, Sort};
use sz_protofile_names::unreserved;
use sz_types::{Encoding, Field, Fields, NoMemory, Text, Ty, copy_fields};

// The fields that were made, by the full names of messages.
type Made = IndexMap<String, Fields>;

// The type of a message, of the fields that were made.
fn type_of(alloc: Global, made: &Made, name: &str) -> Result<Ty, NoMemory>
    ensures value { IfOk result (λ ty. seen ty ≡ type_in (λ m. seen_found (get_by_text made.now m)) name.now) }
{
    match made.get(name) {
        Some(fields) => Ok(Ty::Proto(copy_fields(fields)?)),
        None => Ok(Ty::Proto(Fields::new(alloc)?)),
    }
}

// The type of a field that has no message's.
fn plain_type(kind: PlainKind) -> Ty
    ensures value { seen result ≡ shape_of kind }
{
    match kind {
        PlainKind::Truth => Ty::Bool,
        PlainKind::Whole => Ty::Int,
        PlainKind::Str => Ty::Str,
        PlainKind::Bytes => Ty::Bytes,
    }
}

// The array of the type, if the field is repeated.
fn repeated(alloc: Global, repeated: bool, ty: Ty) -> Result<Ty, NoMemory>
    ensures value { IfOk result (λ made. seen made ≡ (if repeated then array (seen ty) else seen ty)) }
{
    if repeated {
        Ok(Ty::Array(Box::new(alloc, ty)?))
    } else {
        Ok(ty)
    }
}

// The field with this type.
fn as_field(alloc: Global, field: &FieldIn, ty: Ty, code: Encoding) -> Result<Field, NoMemory>
    ensures value { IfOk result (λ made. seen_field made ≡ as_field field.now (seen ty) code) }
{
    let ty = repeated(alloc, field.repeated, ty)?;
    let name = Text::from_str(alloc, field.name.as_str())?;
    Ok(Field {
        name,
        ty,
        number: field.number,
        code,
    })
}

// What a field adds to its message's type.
fn added_by(
    alloc: Global,
    ranks: &Ranks,
    made: &Made,
    field: &FieldIn,
) -> Result<Option<Field>, NoMemory>
    ensures value { IfOk result (λ added. option_to_list (option_map seen_field added)
        ≡ added_by ranks.now (λ m. seen_found (get_by_text made.now m)) field.now) }
{
    match &field.sort {
        Sort::Unkept => Ok(None),
        Sort::Kept(plain) => Ok(Some(as_field(alloc, field, plain_type(plain.kind), plain.code)?)),
        Sort::Message(target) => {
            if ranks.rank(target.as_str()) < ranks.rank(field.owner.as_str()) {
                let ty = type_of(alloc, made, target.as_str())?;
                Ok(Some(as_field(alloc, field, ty, Encoding::Plain)?))
            } else {
                Ok(None)
            }
        }
    }
}

// Appends a field to those of a message that has none yet.
fn put_first(alloc: Global, made: &mut Made, owner: &str, field: Field) -> Result<(), NoMemory>
    ensures ok { OnOk result ((m : List ℕ) → seen_found (get_by_text made.new m)
        ≡ (if bytes_eq owner.now m then seen_field field ∷ [] else seen_found (get_by_text made.old m))) }
{
    let mut fields = Fields::new(alloc)?;
    fields.push(field)?;
    made.insert(String::from_str(alloc, owner)?, fields)?;
    Ok(())
}

// Appends a field to those of a message.
fn put(alloc: Global, made: &mut Made, owner: &str, field: Field) -> Result<(), NoMemory>
    ensures ok { OnOk result ((m : List ℕ) → seen_found (get_by_text made.new m)
        ≡ (if bytes_eq owner.now m then seen_found (get_by_text made.old owner.now) ++ seen_field field ∷ [] else seen_found (get_by_text made.old m))) }
{
    match made.get_mut(owner) {
        Some(fields) => fields.push(field),
        None => put_first(alloc, made, owner, field),
    }
}

// Makes a field.
fn make_field(
    alloc: Global,
    ranks: &Ranks,
    made: &mut Made,
    field: &FieldIn,
) -> Result<(), NoMemory>
    ensures ok { OnOk result ((m : List ℕ) → seen_found (get_by_text made.new m)
        ≡ after_field ranks.now (λ m. seen_found (get_by_text made.old m)) field.now m) }
{
    match added_by(alloc, ranks, made, field)? {
        Some(added) => put(alloc, made, field.owner.as_str(), added),
        None => Ok(()),
    }
}

// Makes the fields, by rising ranks of the messages in which they stand.
fn make_fields(alloc: Global, ranks: &Ranks, fields: &[FieldIn]) -> Result<Made, NoMemory>
    ensures value { IfOk result (λ made. (m : List ℕ) → seen_found (get_by_text made m) ≡ made_of ranks.now fields.now m) }
{
    let mut made = IndexMap::new(alloc);
    for field in fields {
        make_field(alloc, ranks, &mut made, field)?;
    }
    Ok(made)
}

// The type of a message with its name.
fn named(alloc: Global, made: &Made, message: &Scope) -> Result<NamedType, NoMemory>
    ensures value { IfOk result (λ t. t ≡ type_named (type_in (λ m. seen_found (get_by_text made.now m))) message.now) }
{
    let name = unreserved(alloc, message.joined.as_str())?;
    let ty = type_of(alloc, made, message.full.as_str())?;
    Ok(NamedType {
        name: Text::from_string(name),
        ty,
    })
}

// The types of these messages, of the fields that were made.
fn all_named(alloc: Global, made: &Made, messages: &[Scope]) -> Result<NamedTypes, NoMemory>
    ensures value { IfOk result (λ types. types ≡ map (type_named (type_in (λ m. seen_found (get_by_text made.now m)))) messages.now) }
{
    let mut types = NamedTypes::with_capacity(alloc, messages.len())?;
    for message in messages {
        types.push(named(alloc, made, message)?)?;
    }
    Ok(types)
}

// The types of these messages, made of their fields by rising ranks.
pub(crate) fn make_types(
    alloc: Global,
    ranks: &Ranks,
    fields: &[FieldIn],
    messages: &[Scope],
) -> Result<NamedTypes, NoMemory>
    ensures value { IfOk result (λ types. types ≡ map (type_named (type_in (made_of ranks.now fields.now))) messages.now) }
{
    let made = make_fields(alloc, ranks, fields)?;
    all_named(alloc, &made, messages)
}
