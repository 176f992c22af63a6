//! Tests of values as bytes, of the aggregators of tables, of all tables together, and of their text, as rows of data.
#![tactic(auto)]

#[cfg(test)]
mod dealing;
#[cfg(test)]
mod flat;
#[cfg(test)]
mod large;
#[cfg(test)]
mod plain;
#[cfg(test)]
mod printing;
#[cfg(test)]
mod tables;
#[cfg(test)]
mod totals;
