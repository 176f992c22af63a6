//! The rows of the tables of a program, index list by index list, and what the tables stand for.
#![tactic(auto)]

mod aggregate;
mod boxed;
mod dealing;
mod hands;
mod in_order;
mod index_lists;
mod indexed;
mod joining;
mod laws;
mod one_table;
mod part;
mod parts;
mod total;

pub use in_order::RowsInOrder;
pub use indexed::{IndexedRows, TableRows};
pub use laws::{
    a_table_shows_its_indexes, no_emits_no_rows, tables_forget_the_order, what_is_shown_fits,
};
pub use total::Total;
