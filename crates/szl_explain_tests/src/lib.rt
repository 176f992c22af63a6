//! Tests of explanations: programs, and what is said of each.
#![tactic(auto)]

#[cfg(test)]
mod explained;
#[cfg(test)]
mod rows;
