//! The protocol buffer wire format: varints, keys and fields, read from bytes at a place.
#![tactic(auto)]

mod bad;
mod field;
mod group;
mod key;
mod plain;
mod varint;

pub use bad::Bad;
pub use field::{WireField, WireKind, next_field};
pub use key::read_key;
pub use plain::{eight_bytes, four_bytes};
pub use varint::read_varint;
