//! What is wrong with a program that is refused: its line and its place, and what more can be said of it.
#![tactic(auto)]

mod counts;
mod explanation;
mod fault;
mod names;
mod paths;
mod program;
mod statements;
mod tables;
mod uses;
mod wrong_type;

pub use explanation::{Explanation, explain};
pub use program::{Status, explain_file};
