//! How a field of a message is encoded.

/// How the whole numbers in a field of a message are encoded, in the terms of the protocol buffer wire format.
#[derive(Clone, Copy, Debug, PartialEq, Eq)]
pub enum Encoding {
    /// Varints are numbers in two's complement, and packed elements are varints.
    Plain,
    /// Varints are zigzag numbers: 0, 1, 2, 3 and so on stand for 0, -1, 1, -2 and so on.
    Zigzag,
    /// Packed elements have four bytes each, the least first.
    Fixed32,
    /// Packed elements have eight bytes each, the least first.
    Fixed64,
}
