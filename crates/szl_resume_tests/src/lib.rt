//! Tests of jobs that are resumed: over files and sinks in memory, and a disk in memory that fails and crashes.
#![tactic(auto)]

#[cfg(test)]
mod command;
#[cfg(test)]
mod crashes;
#[cfg(test)]
mod rows;
