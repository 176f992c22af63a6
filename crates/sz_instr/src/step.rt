//! The steps of paths into values.

use sz_list::Items;

/// A step from a value into it.
#[derive(Drop)]
pub enum Step {
    /// To the element of an array under an index, or to the value of a map under a key.
    Index,
    /// To the part of a tuple or a message at this place, counted from 0.
    Field(u32),
}

/// The steps of a path, the outermost first.
pub type Steps = Items<Step>;
