//! Where a file of messages, each with its length in front, can be cut into parts.
#![tactic(auto)]

mod cut;
mod failure;
mod laws;
mod lines;
mod progress;
mod top;

pub use cut::cut_places;
pub use failure::Failure;
pub use laws::{parts_are_few, parts_hold_the_records};
pub use top::cut_file;
