//! The names of a `.proto` file: which message or enum a word means, and what is wrong with the file, if anything is.
#![tactic(auto)]

mod before;
mod error;
mod fault;
mod hashes;
mod known;
mod lookup;
mod members;
mod names;
mod scopes;
mod sound;
mod words;

pub use error::ProtoError;
pub use fault::file_fault;
pub use known::{Known, known_in};
pub use names::Names;
pub use scopes::{Open, called, full_of, step};
pub use sound::sound_lines;
pub use words::{scalar_of, spelled, unreserved};
