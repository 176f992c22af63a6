//! What a refusal of a program's text is, and the line that says so.
#![tactic(auto)]

mod refusal;

pub use refusal::{FIRST_PLACE, MOST_PROGRAM_BYTES, Refusal, push_name, push_place, refusal_line};
