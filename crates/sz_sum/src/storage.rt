//! How sums are kept.

// The sums of one index list by component.
#[derive(Debug, Drop)]
pub(crate) enum Storage {
    // A single one, in place.
    One(i128),
    // None or several, in a block of their own.
    Many(Vec<i128>),
}
