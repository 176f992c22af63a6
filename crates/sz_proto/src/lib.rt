//! The value of a protocol buffer message by its type.
#![tactic(auto)]

mod elements;
mod finding;
mod laws;
mod message;
mod numbers;
mod packed;
mod singles;

pub use laws::what_is_decoded_has_its_type;
pub use message::decode;
/// There was no memory: the one answer of each call that takes memory which no clause speaks of.
pub use std::alloc::AllocError as NoMemory;
