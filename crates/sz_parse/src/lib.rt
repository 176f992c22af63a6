//! From tokens to the syntax tree.
#![tactic(auto)]

mod error;
mod laws;
mod leaf;
mod program;
mod signs;
mod simple;
mod stmt;
mod table;

pub use error::ParseError;
pub use laws::{every_list_is_read, greatest_height_is_256, refusal_is_unique, trees_are_unique};
pub use program::parse;
pub use sz_parse_expr::MAX_HEIGHT;
