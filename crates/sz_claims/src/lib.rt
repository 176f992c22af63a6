//! The ledger of a round, which threads share without a lock.
#![tactic(auto)]

mod lanes;
mod ledger;
mod rule;
mod steps;
mod view;
mod words;

pub use ledger::{Ledger, Pass};
