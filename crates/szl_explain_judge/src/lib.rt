//! What is wrong with a program's text: its first refusal; what is said where it can't be read, of a byte, a literal or a statement that
//! isn't one; and trials, which find the type of an expression or the fields of a value: small changes of the program, each of which is judged.
#![tactic(auto)]

mod hints;
mod judge;
mod letters;
mod probe;
mod stop;
mod stuck;
mod syntax;
mod trial;
mod written;

pub use judge::refusal_in;
pub use letters::{say_character, say_literal, say_not_utf8};
pub use syntax::say_syntax;
pub use trial::{Trial, can_be_tried, fields_there, top_of};
pub use written::ends_of_expressions;
