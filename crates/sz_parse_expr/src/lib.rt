//! From tokens to the syntax trees of types and of expressions.
#![tactic(auto)]

mod composite;
mod expression;
mod failed;
mod limit;
mod nodes;
mod operators;
mod postfix;
mod primary;
mod reader;
mod token;
mod types;

pub use expression::expr;
pub use failed::Failed;
pub use limit::{Depth, MAX_HEIGHT};
pub use primary::{call, condition};
pub use reader::{Parsed, Reader};
pub use token::{expect, expect_word, ident, name, skip, skip_word};
pub use types::{elem, label, number, params, type_tree};
