//! Tables that keep the greatest or the least, as aggregators.
#![tactic(auto)]

mod extreme;
mod heap;
mod rank;
mod ranked_rows;

pub use extreme::Extreme;
