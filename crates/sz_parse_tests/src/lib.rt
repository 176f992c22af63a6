//! Tests of the parser and of the bounds of `when`: texts, and the trees, the bounds or the refusals that they have.
#![tactic(auto)]

#[cfg(test)]
mod forms;
#[cfg(test)]
mod heights;
#[cfg(test)]
mod outcome;
#[cfg(test)]
mod refusals;
#[cfg(test)]
mod rows;
#[cfg(test)]
mod shown;
#[cfg(test)]
mod told;
