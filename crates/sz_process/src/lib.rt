//! What a program has of its process: the words that it is called with, and its standard streams.
#![tactic(auto)]

mod arguments;
mod streams;

pub use arguments::given_words;
pub use streams::{StandIns, Stream, stand_ins};
