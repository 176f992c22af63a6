//! A generated input that tries all of a run: a file of messages drawn from a seed, and a program for it.
#![tactic(auto)]

mod draws;
mod feeding;
mod program;
mod record;

pub use feeding::{MOST_RECORDS, feed};
pub use program::{PROGRAM, program_bytes};
/// There was no memory: the one answer of a call that no clause speaks of.
pub use std::alloc::AllocError as NoMemory;
