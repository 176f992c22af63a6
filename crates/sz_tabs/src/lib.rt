//! Emits, the rows of tables, and what an aggregator is.
#![tactic(auto)]

mod adding;
mod aggregator;
mod emit;
mod laws;
mod plain;
mod plain_rows;
mod row;
mod sums;

pub use aggregator::Aggregator;
pub use emit::{Emit, Emits};
pub use laws::{
    distinct_values_are_a_set, emits_join, nothing_has_no_rows, rows_decide, rows_forget_the_order,
    sorting_sorts,
};
pub use plain::PlainAggregator;
pub use row::{Row, RowValue, Rows};
pub use sums::Sums;
pub use sz_value::NoMemory;
