//! Numbers, names, types and declarations, appended to bytes.
ghost use Rattle.std.specs.Prelude.{◌≡◌, ◌++◌, ◌∷◌, [], length, map, flat_map, OnOk};
ghost use Rattle.std.specs.Option.{option_map};
ghost use Rattle.sz_types.specs.Seen.{seen, seen_field};
ghost use Rattle.sz_types.specs.SeenTables.{seen_table};
ghost use Rattle.sz_types.specs.Same.{encoding_number};
ghost use Rattle.sz_flat.specs.Spelling.{length_bytes, number_bytes, counted_bytes};
ghost use Rattle.sz_save_format.specs.Types.{type_bytes};
ghost use Rattle.sz_save_format.specs.Declarations as declarations;
ghost use Rattle.sz_save_format.specs.Declarations.{weight_bytes, declaration_bytes};
ghost use Rattle.sz_save_format.specs.Entries.{count_bytes, sum_bytes};
ghost use Rattle.sz_save_format.specs.Fields.{field_bytes};

use crate::NoMemory;
use sz_types::{Encoding, Field, Kind, TableDecl, TableKind, Ty, type_kind};

// Appends a length in 4 bytes: the low ones of its 8.
#[tactic(auto, using(crate::proofs::WritingLemmas::low_bytes))]
pub(crate) fn put_length(length: usize, out: &mut Vec<u8>) -> Result<(), NoMemory>
    ensures value { OnOk result (out.new.items ≡ out.old.items ++ length_bytes length) }
{
    let bytes = (length as u64).to_be_bytes();
    out.extend_from_slice(&bytes[4..])?;
    Ok(())
}

// Appends a count in 8 bytes.
pub(crate) fn put_count(count: u64, out: &mut Vec<u8>) -> Result<(), NoMemory>
    ensures value { OnOk result (out.new.items ≡ out.old.items ++ count_bytes count) }
{
    out.extend_from_slice(&count.to_be_bytes())?;
    Ok(())
}

// Appends a number in 8 bytes.
pub(crate) fn put_number(number: i64, out: &mut Vec<u8>) -> Result<(), NoMemory>
    ensures value { OnOk result (out.new.items ≡ out.old.items ++ number_bytes number) }
{
    out.extend_from_slice(&number.to_be_bytes())?;
    Ok(())
}

// Appends a sum in 16 bytes.
pub(crate) fn put_sum(sum: i128, out: &mut Vec<u8>) -> Result<(), NoMemory>
    ensures value { OnOk result (out.new.items ≡ out.old.items ++ sum_bytes sum) }
{
    let bits = sum.cast_unsigned();
    put_count((bits / (1 << 64)) as u64, out)?;
    put_count((bits % (1 << 64)) as u64, out)
}

// Appends bytes behind their number.
fn put_string(bytes: &[u8], out: &mut Vec<u8>) -> Result<(), NoMemory>
    ensures value { OnOk result (out.new.items ≡ out.old.items ++ counted_bytes bytes.now) }
{
    put_length(bytes.len(), out)?;
    out.extend_from_slice(bytes)?;
    Ok(())
}

// Appends a declaration.
pub(crate) fn put_declaration(table: &TableDecl, out: &mut Vec<u8>) -> Result<(), NoMemory>
    ensures value { OnOk result (out.new.items ≡ out.old.items ++ declaration_bytes (seen_table table.now)) }
{
    put_string(table.name.as_bytes(), out)?;
    out.push(kind_byte(table.kind))?;
    put_length(table.limit as usize, out)?;
    put_types(table.indexes.as_slice(), out)?;
    put_type(&table.element, out)?;
    put_weight(&table.weight, out)
}

// The byte of a kind of table.
fn kind_byte(kind: TableKind) -> u8
    ensures value { result ≡ declarations.kind_byte kind }
{
    match kind {
        TableKind::Sum => 0,
        TableKind::Maximum => 1,
        TableKind::Minimum => 2,
        TableKind::Set => 3,
        TableKind::Collection => 4,
    }
}

// Appends the type of the weights, if there are any.
fn put_weight(weight: &Option<Ty>, out: &mut Vec<u8>) -> Result<(), NoMemory>
    ensures value { OnOk result (out.new.items ≡ out.old.items ++ weight_bytes (option_map seen weight.now)) }
{
    match weight {
        Some(ty) => {
            out.push(1)?;
            put_type(ty, out)
        }
        None => {
            out.push(0)?;
            Ok(())
        }
    }
}

// Appends types behind their number.
fn put_types(types: &[Ty], out: &mut Vec<u8>) -> Result<(), NoMemory>
    ensures value { OnOk result (out.new.items ≡ out.old.items ++ (length_bytes (length types.now) ++ flat_map type_bytes (map seen types.now))) }
{
    put_length(types.len(), out)?;
    put_each_type(types, out)
}

// Appends each of the types.
fn put_each_type(types: &[Ty], out: &mut Vec<u8>) -> Result<(), NoMemory>
    ensures value { OnOk result (out.new.items ≡ out.old.items ++ flat_map type_bytes (map seen types.now)) }
{
    for ty in types {
        put_type(ty, out)?;
    }
    Ok(())
}

// Appends a type.
#[cycle(put)]
fn put_type(ty: &Ty, out: &mut Vec<u8>) -> Result<(), NoMemory>
    ensures value { OnOk result (out.new.items ≡ out.old.items ++ type_bytes (seen ty.now)) }
{
    match type_kind(ty) {
        Kind::Bool => put_byte(1, out),
        Kind::Int => put_byte(2, out),
        Kind::Time => put_byte(3, out),
        Kind::Str => put_byte(4, out),
        Kind::Bytes => put_byte(5, out),
        Kind::Array(element) => {
            put_byte(6, out)?;
            put_type(element, out)
        }
        Kind::Map(key, value) => {
            put_byte(8, out)?;
            put_type(key, out)?;
            put_type(value, out)
        }
        Kind::Tuple(fields) => {
            put_byte(7, out)?;
            put_fields(false, fields, out)
        }
        Kind::Proto(fields) => {
            put_byte(9, out)?;
            put_fields(true, fields, out)
        }
    }
}

// Appends a byte.
pub(crate) fn put_byte(byte: u8, out: &mut Vec<u8>) -> Result<(), NoMemory>
    ensures value { OnOk result (out.new.items ≡ out.old.items ++ byte ∷ []) }
{
    out.push(byte)?;
    Ok(())
}

// Appends fields behind their number.
#[cycle(put)]
fn put_fields(numbered: bool, fields: &[Field], out: &mut Vec<u8>) -> Result<(), NoMemory>
    ensures value { OnOk result (out.new.items ≡
        out.old.items ++ (length_bytes (length fields.now) ++ flat_map (field_bytes numbered) (map seen_field fields.now))) }
{
    put_length(fields.len(), out)?;
    put_each_field(numbered, fields, out)
}

// Appends each of the fields.
#[cycle(put)]
fn put_each_field(numbered: bool, fields: &[Field], out: &mut Vec<u8>) -> Result<(), NoMemory>
    ensures value { OnOk result (out.new.items ≡ out.old.items ++ flat_map (field_bytes numbered) (map seen_field fields.now)) }
{
    for field in fields {
        put_field(numbered, field, out)?;
    }
    Ok(())
}

// Appends a field: its name and its type, and in a message its number and its encoding.
#[cycle(put)]
fn put_field(numbered: bool, field: &Field, out: &mut Vec<u8>) -> Result<(), NoMemory>
    ensures value { OnOk result (out.new.items ≡ out.old.items ++ field_bytes numbered (seen_field field.now)) }
{
    put_string(field.name.as_bytes(), out)?;
    put_type(&field.ty, out)?;
    if numbered {
        put_length(field.number as usize, out)?;
        out.push(encoding_byte(field.code))?;
    }
    Ok(())
}

// The byte of an encoding.
fn encoding_byte(code: Encoding) -> u8
    ensures value { result ≡ encoding_number code }
{
    match code {
        Encoding::Plain => 0,
        Encoding::Zigzag => 1,
        Encoding::Fixed32 => 2,
        Encoding::Fixed64 => 3,
    }
}
