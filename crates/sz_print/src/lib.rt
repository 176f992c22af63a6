//! The text of values, of the rows of tables, and of all tables.
#![tactic(auto)]

mod comma;
mod laws;
mod number;
mod pieces;
mod quoted;
mod row;
mod tables;
mod value;

pub use laws::{rows_have_the_text_of_their_emits, text_forgets_the_order};
pub use row::push_rows;
pub use tables::{SavedTables, text, text_by, text_rows};
pub use value::push_value;
