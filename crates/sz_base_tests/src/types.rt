//! Which types are the same and which convert, and what lists of types, fields and tables give back.
use crate::types::Basic::{Bool, Bytes, Int, Str, Time};
use crate::types::Given::{Array, Arrays, Map, Message, Plain, Proto, Tuple};
use std::alloc::Global;
use sz_types::{
    Encoding, Field, Fields, NoMemory, TableDecl, TableDecls, TableKind, Text, Ty, Tys, converts,
    copy_fields, copy_table, copy_ty, copy_tys, same,
};

#[derive(Clone, Copy)]
enum Basic {
    Bool,
    Int,
    Time,
    Str,
    Bytes,
}

// A type as rows write it.
#[derive(Clone, Copy)]
enum Given {
    Plain(Basic),
    Array(Basic),
    // An array of arrays.
    Arrays(Basic),
    Map(Basic, Basic),
    // Fields of these names, all of whole numbers.
    Tuple(&'static [&'static str]),
    Proto(&'static [&'static str]),
    // A proto type of one field: its name, type, number and encoding.
    Message(&'static str, Basic, u32, Encoding),
}

// Each type is the same as itself alone.
const TYPES: &[Given] = &[
    Plain(Bool),
    Plain(Int),
    Plain(Time),
    Plain(Str),
    Plain(Bytes),
    Array(Int),
    Array(Time),
    Arrays(Int),
    Map(Str, Int),
    Map(Str, Str),
    Map(Int, Int),
    Map(Int, Str),
    Tuple(&["a"]),
    Tuple(&[]),
    Tuple(&["b"]),
    Tuple(&["a", "b"]),
    Tuple(&["b", "a"]),
    Tuple(&["a", "a"]),
    Proto(&["a"]),
    Proto(&[]),
    Proto(&["b"]),
    Proto(&["a", "b"]),
    Proto(&["b", "a"]),
    Proto(&["a", "a"]),
    Message("id", Int, 1, Encoding::Plain),
    Message("id", Int, 1, Encoding::Zigzag),
    Message("id", Int, 1, Encoding::Fixed32),
    Message("id", Int, 1, Encoding::Fixed64),
    Message("id", Int, 2, Encoding::Plain),
    Message("id", Time, 1, Encoding::Plain),
    Message("id2", Int, 1, Encoding::Plain),
    Message("Id", Int, 1, Encoding::Plain),
];

// The table comes from a call, so that no proof sees what stands in it.
fn types() -> &'static [Given] {
    TYPES
}

fn plain(basic: Basic) -> Ty {
    match basic {
        Basic::Bool => Ty::Bool,
        Basic::Int => Ty::Int,
        Basic::Time => Ty::Time,
        Basic::Str => Ty::Str,
        Basic::Bytes => Ty::Bytes,
    }
}

fn array(alloc: Global, element: Ty) -> Result<Ty, NoMemory> {
    Ok(Ty::Array(Box::new(alloc, element)?))
}

fn map(alloc: Global, key: Ty, value: Ty) -> Result<Ty, NoMemory> {
    let key = Box::new(alloc, key)?;
    let value = Box::new(alloc, value)?;
    Ok(Ty::Map(key, value))
}

// One field.
fn field(
    alloc: Global,
    name: &str,
    ty: Ty,
    number: u32,
    code: Encoding,
) -> Result<Fields, NoMemory> {
    let name = Text::from_str(alloc, name)?;
    let mut fields = Fields::new(alloc)?;
    fields.push(Field {
        name,
        ty,
        number,
        code,
    })?;
    Ok(fields)
}

// The fields of these names, all of whole numbers.
fn numbers(alloc: Global, names: &[&str]) -> Result<Fields, NoMemory> {
    let mut fields = Vec::new(alloc);
    for name in names {
        fields.append(&mut field(alloc, name, Ty::Int, 0, Encoding::Plain)?.into_vec()?)?;
    }
    Fields::from_vec(alloc, fields)
}

fn type_of(alloc: Global, given: Given) -> Result<Ty, NoMemory> {
    match given {
        Given::Plain(basic) => Ok(plain(basic)),
        Given::Array(element) => array(alloc, plain(element)),
        Given::Arrays(element) => array(alloc, array(alloc, plain(element))?),
        Given::Map(key, value) => map(alloc, plain(key), plain(value)),
        Given::Tuple(names) => Ok(Ty::Tuple(numbers(alloc, names)?)),
        Given::Proto(names) => Ok(Ty::Proto(numbers(alloc, names)?)),
        Given::Message(name, ty, number, code) => {
            Ok(Ty::Proto(field(alloc, name, plain(ty), number, code)?))
        }
    }
}

// All types of the table.
fn all(alloc: Global) -> Result<Tys, NoMemory> {
    let mut all = Tys::new(alloc);
    for given in types() {
        all.push(type_of(alloc, *given)?)?;
    }
    Ok(all)
}

// Whether a type converts to another one.
fn is_listed(from: &Ty, to: &Ty) -> bool {
    matches!(
        (from, to),
        (Ty::Bool | Ty::Bytes, Ty::Int | Ty::Str)
            | (Ty::Int, Ty::Time | Ty::Str)
            | (Ty::Time, Ty::Int)
            | (Ty::Str, Ty::Int | Ty::Bytes)
            | (Ty::Bytes, Ty::Proto(_))
    )
}

// Whether the copy of the type at a place of the table is the same as the one there alone, and converts as it should.
fn stands_at(alloc: Global, place: usize) -> Result<bool, NoMemory> {
    let types = all(alloc)?;
    let copies = copy_tys(alloc, &types)?;
    match copies.as_slice().get(place) {
        Some(made) => Ok(is_alone(types.as_slice(), place, made)),
        None => Ok(false),
    }
}

fn is_alone(types: &[Ty], place: usize, made: &Ty) -> bool {
    let mut all = true;
    for (k, other) in types.iter().enumerate() {
        all = all
            && stand_so(
                made,
                other,
                place == k,
                place == k || is_listed(made, other),
            );
    }
    all
}

fn stand_so(from: &Ty, to: &Ty, is_same: bool, goes_over: bool) -> bool {
    same(from, to) == is_same && converts(from, to) == goes_over
}

#[test]
fn types_that_differ_in_one_place_are_not_the_same_and_convert_as_listed(rt: HostRuntime) {
    assert_eq!(rt; types().len(), 32);
    for place in 0..32 {
        assert!(rt;
            matches!(stands_at(rt.alloc(), place), Ok(true)),
            "type {place}"
        );
    }
}

// The text, as a string and as bytes in between.
fn given_back(text: Text) -> Text {
    let text = Text::from_string(text.into_string());
    Text::from_utf8(text.into_bytes())
}

// Whether a text is made and given back.
fn text_is_given_back(alloc: Global) -> Result<bool, NoMemory> {
    let text = Text::from_str(alloc, "größe")?;
    let is_made = text.as_bytes() == b"gr\xc3\xb6\xc3\x9fe".as_slice();
    let text = given_back(text);
    Ok(is_made && text.as_str() == "größe")
}

// Whether fields are pushed, copied and given back, while a copy shares them.
fn fields_are_given_back(alloc: Global) -> Result<bool, NoMemory> {
    let fields = numbers(alloc, &["x", "y"])?;
    let copies = Fields::from_vec(alloc, copy_fields(&fields)?.into_vec()?)?;
    Ok(are_x_and_y(copies.as_slice()) && are_x_and_y(fields.as_slice()))
}

// Whether a field that is pushed to a copy is in the copy alone.
fn fields_grow_apart(alloc: Global) -> Result<bool, NoMemory> {
    let fields = numbers(alloc, &["x", "y"])?;
    let mut copies = copy_fields(&fields)?;
    copies.push(Field {
        name: Text::from_str(alloc, "z")?,
        ty: Ty::Int,
        number: 0,
        code: Encoding::Plain,
    })?;
    Ok(are_x_and_y(fields.as_slice()) && copies.len() == 3)
}

fn are_x_and_y(fields: &[Field]) -> bool {
    match fields {
        [x, y] => x.name.as_str() == "x" && y.name.as_str() == "y",
        _ => false,
    }
}

// Whether types are pushed, copied and given back.
fn types_are_given_back(alloc: Global) -> Result<bool, NoMemory> {
    let mut types = Tys::new(alloc);
    types.push(Ty::Str)?;
    types.push(Ty::Int)?;
    let types = Tys::from_vec(copy_tys(alloc, &types)?.into_vec());
    Ok(matches!(types.as_slice(), [Ty::Str { .. }, Ty::Int { .. }]))
}

// A declaration of a table of this name.
fn table(alloc: Global, name: &str) -> Result<TableDecl, NoMemory> {
    let name = Text::from_str(alloc, name)?;
    let mut indexes = Tys::new(alloc);
    indexes.push(Ty::Str)?;
    Ok(TableDecl {
        name,
        kind: TableKind::Maximum,
        limit: 10,
        indexes,
        element: Ty::Bytes,
        weight: Some(Ty::Int),
    })
}

// Whether a declaration is the one of this name.
fn is_table(table: &TableDecl, name: &str) -> bool {
    table.name.as_str() == name
        && table.kind == TableKind::Maximum
        && table.limit == 10
        && table.indexes.len() == 1
        && matches!(table.element, Ty::Bytes)
        && matches!(table.weight, Some(Ty::Int))
}

// The copy of a declaration that is dropped.
fn copied_table(alloc: Global, name: &str) -> Result<TableDecl, NoMemory> {
    let made = table(alloc, name)?;
    let copied = copy_table(alloc, &made);
    drop(made);
    copied
}

fn are_best_and_worst(tables: &[TableDecl]) -> bool {
    match tables {
        [best, worst] => is_table(best, "best") && is_table(worst, "worst"),
        _ => false,
    }
}

// Whether two declarations, the second copied, are pushed and given back.
fn tables_are_given_back(alloc: Global) -> Result<bool, NoMemory> {
    let mut tables = TableDecls::new(alloc);
    tables.push(table(alloc, "best")?)?;
    tables.push(copied_table(alloc, "worst")?)?;
    let tables = TableDecls::from_vec(tables.into_vec());
    Ok(are_best_and_worst(tables.as_slice()))
}

#[test]
fn texts_fields_types_and_declarations_are_made_and_given_back(rt: HostRuntime) {
    let found = [
        text_is_given_back(rt.alloc()),
        fields_are_given_back(rt.alloc()),
        fields_grow_apart(rt.alloc()),
        types_are_given_back(rt.alloc()),
        tables_are_given_back(rt.alloc()),
    ];
    for (number, found) in found.iter().enumerate() {
        assert!(rt; matches!(found, Ok(true)), "list {number}");
    }
}

// A type of this many levels, one in the other: in turn arrays, maps, tuples and proto types.
fn chain(alloc: Global, height: u32) -> Result<Ty, NoMemory> {
    let mut ty = Ty::Int;
    for level in 0..height {
        ty = match level % 4 {
            0 => array(alloc, ty)?,
            1 => map(alloc, Ty::Str, ty)?,
            2 => Ty::Tuple(field(alloc, "next", ty, 0, Encoding::Plain)?),
            _ => Ty::Proto(field(alloc, "next", ty, 1, Encoding::Plain)?),
        };
    }
    Ok(ty)
}

/// Whether a type of this height is the same as its copy, and converts to it. Both are dropped.
pub(crate) fn handles_chain(alloc: Global, height: u32) -> Result<bool, NoMemory> {
    let ty = chain(alloc, height)?;
    let holds = is_its_copy(alloc, &ty);
    drop(ty);
    holds
}

fn is_its_copy(alloc: Global, ty: &Ty) -> Result<bool, NoMemory> {
    let made = copy_ty(alloc, ty)?;
    let holds = stand_so(ty, &made, true, true);
    drop(made);
    Ok(holds)
}
