//! Tables that keep sets and collections of values, as aggregators.
#![tactic(auto)]

mod counting;
mod members;
mod value_rows;

pub use members::Members;
