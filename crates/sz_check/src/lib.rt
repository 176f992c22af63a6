//! From the syntax tree of a program to the checked one, or to the first refusal.
#![tactic(auto)]

mod composed;
mod declared;
mod emitted;
mod error;
mod function;
mod program;
mod quantified;
mod simple;
mod stmt;
mod table;
mod target;
mod top;
mod with_types;

pub use error::CheckError;
pub use program::check;
pub use with_types::check_with;
