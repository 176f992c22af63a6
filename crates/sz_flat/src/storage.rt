//! How bytes are kept.
use crate::short_bytes::ShortBytes;

// The bytes of a list, in one of two places.
#[derive(Drop)]
pub(crate) enum Storage {
    // In place.
    Short(ShortBytes),
    // In a block of their own; where there are none, without one.
    Long(Vec<u8>),
}
