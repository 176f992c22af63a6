//! Tests of the checker: programs, and for each that it is one, or its first refusal; and of the types from `.proto` files.
#![tactic(auto)]

#[cfg(test)]
mod declarations;
#[cfg(test)]
mod errors;
#[cfg(test)]
mod faults;
#[cfg(test)]
mod fields;
#[cfg(test)]
mod judged;
#[cfg(test)]
mod lines;
#[cfg(test)]
mod programs;
#[cfg(test)]
mod quantified;
#[cfg(test)]
mod ranks;
#[cfg(test)]
mod tokens;
#[cfg(test)]
mod trees;
#[cfg(test)]
mod types;
#[cfg(test)]
mod with_types;
