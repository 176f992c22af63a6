//! From a program's text to its tokens.
#![tactic(auto)]

mod error;
mod escape;
mod item;
mod laws;
mod literal;
mod number;
mod scan;
mod sign;
mod token;
mod tokens;
mod word;

pub use error::LexError;
pub use escape::Quoted;
pub use laws::{
    blanks_mean_nothing, every_text_is_read, refusal_is_unique, refused_place_is_in_text,
    spans_lie_in_order, tokens_are_unique, tokens_are_utf8, value_is_unique,
};
pub use literal::decode;
pub use scan::lex;
pub use sign::Sign;
pub use token::{Kind, Token};
pub use tokens::Tokens;
pub use word::Word;
