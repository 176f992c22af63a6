//! A program's text with its tokens, what can stand after a front of them, the names that it declares, and lines that show parts of it.
#![tactic(auto)]

mod expected;
mod grammar;
mod names;
mod page;
mod source;
mod walk;

pub use expected::{Expected, Front, any_begins_with, tokens_of};
pub use grammar::{Sort, has_word, word_of};
pub use names::{Declared, Names, Wanted, say_declared};
pub use page::Page;
pub use source::{CLOSING, OPENING, Source, is_before, joined, part, place_of, text_from};
pub use walk::Walk;
