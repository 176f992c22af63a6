//! Tests of saved tables, as rows of data.
#![tactic(auto)]

#[cfg(test)]
mod files;
#[cfg(test)]
mod joining;
#[cfg(test)]
mod lists;
#[cfg(test)]
mod merging;
#[cfg(test)]
mod pairs;
#[cfg(test)]
mod reading;
#[cfg(test)]
mod samples;
#[cfg(test)]
mod saving;
