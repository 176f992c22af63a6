//! Sums, as aggregators.
#![tactic(auto)]

mod adding;
mod numbers;
mod storage;
mod sum;

pub use sum::Sum;
