//! Tests of the ledgers: that of one thread with its lanes, the one under a lock, and the one that threads share.
#![tactic(auto)]

#[cfg(test)]
mod book_rows;
#[cfg(test)]
mod book_threads;
#[cfg(test)]
mod claims_rows;
#[cfg(test)]
mod claims_threads;
#[cfg(test)]
mod held_rows;
#[cfg(test)]
mod lanes;
#[cfg(test)]
mod placing;
#[cfg(test)]
mod plans;
pub mod progress;
#[cfg(test)]
mod schedules;
#[cfg(test)]
mod tally;
