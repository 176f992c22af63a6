//! How the records of a file end.

/// How the records of a file end. Bytes are counted from 0.
#[derive(Clone, Copy, Debug, PartialEq, Eq)]
pub enum Ending {
    /// The file was cut into records to its end.
    Whole,
    /// The record that begins at this byte isn't all there, or its length is no varint.
    Damaged(u64),
    /// The record that begins at this byte is past a limit.
    Limit(u64),
}
