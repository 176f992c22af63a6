//! Tests of whole command lines, over files and sinks in memory: rows of data, runs that are drawn, gates, and large programs.
#![tactic(auto)]

#[cfg(test)]
mod checking;
#[cfg(test)]
mod checks;
#[cfg(test)]
mod command;
#[cfg(test)]
mod drawn;
#[cfg(test)]
mod drawn_skips;
#[cfg(test)]
mod expression_ticks;
#[cfg(test)]
mod expressions;
#[cfg(test)]
mod gates;
#[cfg(test)]
mod ignoring;
#[cfg(test)]
mod in_memory;
#[cfg(test)]
mod joining;
#[cfg(test)]
mod kill_lists;
#[cfg(test)]
mod kill_lists_and_faults;
#[cfg(test)]
mod kill_lists_and_skips;
#[cfg(test)]
mod kill_lists_of_pairs;
#[cfg(test)]
mod limits;
#[cfg(test)]
mod merges;
#[cfg(test)]
mod messages;
#[cfg(test)]
mod protos;
#[cfg(test)]
mod rows;
#[cfg(test)]
mod runs;
#[cfg(test)]
mod saving;
#[cfg(test)]
mod searches;
#[cfg(test)]
mod skipping;
#[cfg(test)]
mod statement_ticks;
#[cfg(test)]
mod statements;
#[cfg(test)]
mod streams;
#[cfg(test)]
mod tables;
#[cfg(test)]
mod workers;
