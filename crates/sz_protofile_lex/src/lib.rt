//! From the bytes of a `.proto` file to its tokens.
#![tactic(auto)]

mod error;
mod item;
mod scan;
mod token;

pub use error::LexError;
pub use scan::lex;
pub use token::{Kind, Token, lexeme};
