//! The words of a command line, and what they ask for.
#![tactic(auto)]

mod error;
mod files;
mod flags;
mod lists;
mod numbers;
mod reading;
mod settings;
mod texts;
mod words;

pub use error::WordsError;
pub use reading::read_words;
pub use settings::{DEFAULT_SHARD, Kill, Kills, RunSettings, Settings, Texts, Twice};
/// There was no memory: the one answer of each call that takes memory which no clause speaks of.
pub use std::alloc::AllocError as NoMemory;
