//! Tests of the machine and its code: which code is well formed, a static and a record that are run, an array that
//! two locals hold, and lines that are counted.
#![tactic(auto)]

#[cfg(test)]
mod counting;
#[cfg(test)]
mod example;
#[cfg(test)]
mod formed;
#[cfg(test)]
mod sharing;
