//! The names of a program while it is judged: the blocks that are open, and what each name means in them.
#![tactic(auto)]

mod chain;
mod entry;
mod error;
mod meaning;
mod names;
mod scopes;
mod sight;

pub use error::ScopeError;
pub use meaning::Meaning;
pub use names::Names;
pub use scopes::Scopes;
pub use sight::Sight;
/// There was no memory: the one answer of each call that takes memory which no clause speaks of.
pub use std::alloc::AllocError as NoMemory;
