//! How deep messages and groups nest.
use crate::message_types::type_of;
use std::alloc::Global;
use std::test::Fail;
use sz_proto::decode;
use sz_types::{Encoding, Field, Fields, Text, Ty};
use sz_value::Slot;

// So many groups, each in the one before.
fn groups(alloc: Global, count: u32) -> Result<Vec<u8>, Fail> {
    let mut bytes = Vec::new(alloc);
    for _ in 0..count {
        bytes.push(0x0b)?;
    }
    for _ in 0..count {
        bytes.push(0x0c)?;
    }
    Ok(bytes)
}

// The message type with a field 1 of this type.
fn around(alloc: Global, ty: Ty) -> Result<Ty, Fail> {
    let mut fields = Fields::new(alloc)?;
    fields.push(Field {
        name: Text::from_str(alloc, "field")?,
        ty,
        number: 1,
        code: Encoding::Plain,
    })?;
    Ok(Ty::Proto(fields))
}

// A message type of so many levels, and one more below.
fn nested_type(alloc: Global, levels: u32) -> Result<Ty, Fail> {
    let mut ty = Ty::Proto(Fields::new(alloc)?);
    for _ in 0..levels {
        ty = around(alloc, ty)?;
    }
    Ok(ty)
}

// The bytes of a field 1 with this payload.
fn field_with(alloc: Global, payload: &[u8]) -> Result<Vec<u8>, Fail> {
    let mut bytes = Vec::new(alloc);
    bytes.push(0x0a)?;
    let len = payload.len();
    if len >= 128 {
        bytes.push((len % 128) as u8 + 128)?;
        bytes.push((len / 128 % 128) as u8)?;
    } else {
        bytes.push(len as u8)?;
    }
    bytes.extend_from_slice(payload)?;
    Ok(bytes)
}

// A message of so many levels, of which each but the last has the next one in its field 1.
fn nested(alloc: Global, levels: u32) -> Result<Vec<u8>, Fail> {
    let mut bytes = Vec::new(alloc);
    for _ in 1..levels {
        bytes = field_with(alloc, bytes.as_slice())?;
    }
    Ok(bytes)
}

fn is_message(alloc: Global, ty: &Ty, bytes: &[u8]) -> Result<bool, Fail> {
    let slot = decode(alloc, ty, bytes)?;
    let is_message = matches!(&slot, Slot::Defined(_));
    drop(slot);
    Ok(is_message)
}

// Whether so many groups are read.
fn groups_are_read(alloc: Global, count: u32) -> Result<bool, Fail> {
    let bytes = groups(alloc, count)?;
    let ty = type_of(alloc, "2 int")?;
    let is_message = is_message(alloc, &ty, bytes.as_slice());
    drop(ty);
    is_message
}

// Whether a message of so many levels is read.
fn levels_are_read(alloc: Global, levels: u32) -> Result<bool, Fail> {
    let bytes = nested(alloc, levels)?;
    let ty = nested_type(alloc, 120)?;
    let is_message = is_message(alloc, &ty, bytes.as_slice());
    drop(ty);
    is_message
}

#[test]
fn messages_and_groups_nest_to_level_100(rt: HostRuntime) -> Result<(), Fail> {
    for (count, expected) in [(99, true), (100, false)] {
        assert_eq!(rt;
            groups_are_read(rt.alloc(), count)?,
            expected,
            "of {count} groups"
        );
    }
    for (levels, expected) in [
        (1, true),
        (99, true),
        (100, true),
        (101, false),
        (110, false),
    ] {
        assert_eq!(rt;
            levels_are_read(rt.alloc(), levels)?,
            expected,
            "of {levels} levels"
        );
    }
    Ok(())
}
