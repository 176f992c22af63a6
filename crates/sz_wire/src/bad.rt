//! What is answered where bytes spell nothing.

/// The bytes at a place don't spell what was asked for.
#[derive(Clone, Copy, Debug, PartialEq, Eq)]
pub struct Bad;
