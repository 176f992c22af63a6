//! What no contract says of the wire format: that the definitions are those of the published one, by examples written by hand.
use std::alloc::{AllocError, Global};
use sz_wire::WireKind::{Eight, Four, Group, Span, Varint};
use sz_wire::{Bad, WireField, next_field, read_key, read_varint};

// Bytes, and the varint at their front with the place after it.
const VARINTS: &[(&[u8], Result<(u64, usize), Bad>)] = &[
    (&[0x00], Ok((0, 1))),
    (&[0xac, 0x02], Ok((300, 2))),
    (&[0x80, 0x00], Ok((0, 2))),
    (&[0xac], Err(Bad)),
    (&[], Err(Bad)),
    (
        b"\xff\xff\xff\xff\xff\xff\xff\xff\xff\x01",
        Ok((18446744073709551615, 10)),
    ),
    (
        b"\xff\xff\xff\xff\xff\xff\xff\xff\xff\x7f",
        Ok((18446744073709551615, 10)),
    ),
    (b"\x80\x80\x80\x80\x80\x80\x80\x80\x80\x02", Ok((0, 10))),
    (b"\xff\xff\xff\xff\xff\xff\xff\xff\xff\xff\x01", Err(Bad)),
];

// Bytes, and the key at their front with the place after it.
const KEYS: &[(&[u8], Result<(u32, u8, usize), Bad>)] = &[
    (b"\x0a", Ok((1, 2, 1))),
    (b"\x02", Err(Bad)),
    (b"\x0e", Err(Bad)),
    (b"\xf8\xff\xff\xff\x0f", Ok((536870911, 0, 5))),
    (b"\x80\x80\x80\x80\x10", Err(Bad)),
    (b"\x8d\x80\x80\x80\x80\x80\x80\x80\x80\x02", Ok((1, 5, 10))),
];

// Bytes, and the field at their front, with the place after it.
type FieldRow = (&'static [u8], Result<Option<WireField>, Bad>);

const FIELDS: &[FieldRow] = &[
    (b"", Ok(None)),
    (
        b"\x08\x96\x01\xff",
        Ok(Some(WireField {
            number: 1,
            kind: Varint(150),
            next: 3,
        })),
    ),
    (
        b"\x12\x02\x68\x69\x08",
        Ok(Some(WireField {
            number: 2,
            kind: Span(2, 4),
            next: 4,
        })),
    ),
    // An empty payload stands after its length too.
    (
        b"\x12\x00\x08",
        Ok(Some(WireField {
            number: 2,
            kind: Span(2, 2),
            next: 2,
        })),
    ),
    // The same bytes stand in two places.
    (
        b"\x12\x02\x12\x02\x12\x02",
        Ok(Some(WireField {
            number: 2,
            kind: Span(2, 4),
            next: 4,
        })),
    ),
    (b"\x12\x03\x68\x69", Err(Bad)),
    (b"\x12\xff\xff\xff\xff\xff\xff\xff\xff\xff\x01", Err(Bad)),
    (
        b"\x0d\x01\x02\x00\x80",
        Ok(Some(WireField {
            number: 1,
            kind: Four(2147484161),
            next: 5,
        })),
    ),
    (b"\x0d\x01\x02\x00", Err(Bad)),
    (
        b"\x09\x01\x00\x00\x00\x00\x00\x00\x80",
        Ok(Some(WireField {
            number: 1,
            kind: Eight(9223372036854775809),
            next: 9,
        })),
    ),
    (b"\x09\x01\x00\x00\x00\x00\x00\x00", Err(Bad)),
    (
        b"\x2b\x08\x01\x2c",
        Ok(Some(WireField {
            number: 5,
            kind: Group,
            next: 4,
        })),
    ),
    (b"\x2b\x08\x01\x34", Err(Bad)),
    (
        b"\x2b\x33\x34\x12\x01\x2c\x2c\x00",
        Ok(Some(WireField {
            number: 5,
            kind: Group,
            next: 7,
        })),
    ),
    (b"\x2b\x08\x01", Err(Bad)),
    (b"\x2c", Err(Bad)),
    (b"\x08", Err(Bad)),
];

fn varints() -> &'static [(&'static [u8], Result<(u64, usize), Bad>)] {
    VARINTS
}

fn keys() -> &'static [(&'static [u8], Result<(u32, u8, usize), Bad>)] {
    KEYS
}

fn fields() -> &'static [FieldRow] {
    FIELDS
}

#[test]
fn varints_are_read(rt: HostRuntime) {
    for (bytes, wanted) in varints() {
        assert!(rt; read_varint(bytes, 0) == *wanted, "at {bytes:?}");
    }
}

#[test]
fn keys_are_read(rt: HostRuntime) {
    for (bytes, wanted) in keys() {
        assert!(rt; read_key(bytes, 0) == *wanted, "at {bytes:?}");
    }
}

#[test]
fn fields_are_read(rt: HostRuntime) {
    for (bytes, wanted) in fields() {
        assert!(rt; next_field(bytes, 0, 1) == *wanted, "at {bytes:?}");
    }
}

// So many groups, one in another.
fn nested(alloc: Global, levels: usize) -> Result<Vec<u8>, AllocError> {
    let mut bytes = vec![in alloc; 0x2bu8; levels]?;
    for _ in 0..levels {
        bytes.push(0x2c)?;
    }
    Ok(bytes)
}

// Whether so many groups are read as a field, where the outer one lies in a message of this level.
fn is_field(alloc: Global, levels: usize, depth: u32) -> Option<bool> {
    match nested(alloc, levels) {
        Ok(bytes) => Some(next_field(&bytes, 0, depth).is_ok()),
        Err(_) => None,
    }
}

#[test]
fn groups_reach_level_100(rt: HostRuntime) {
    // The last group has level 100, and then twice level 101.
    assert!(rt; is_field(rt.alloc(), 99, 1) == Some(true));
    assert!(rt; is_field(rt.alloc(), 99, 2) == Some(false));
    assert!(rt; is_field(rt.alloc(), 100, 1) == Some(false));
}
