//! The code of statements and of whole programs, made.
#![tactic(auto)]

mod compiled;
mod counting;
mod generate;
mod parts;
mod program;

pub use compiled::{Compiled, compile};
