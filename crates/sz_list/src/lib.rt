//! A list that is a list in contracts: one type for every list of the crates above.
#![tactic(auto)]

mod items;
mod seen;

pub use items::Items;
pub use seen::{Seen, SeenItems};
/// There was no memory: the one answer of each call that takes memory which no clause speaks of.
pub use std::alloc::AllocError as NoMemory;
