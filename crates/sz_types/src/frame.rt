//! How the records of an input are told apart.

/// How the records of an input are told apart.
#[derive(Clone, Copy, Debug, PartialEq, Eq)]
pub enum Frame {
    /// A record is a line, without its end.
    Lines,
    /// Before each record stands its length in bytes, as a variable-length number of the protocol buffer wire format.
    Delimited,
}
