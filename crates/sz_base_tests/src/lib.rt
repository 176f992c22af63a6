//! Tests of the crates that know no program, and of messages: rows of data, each table of which one short loop runs.
#![tactic(auto)]

#[cfg(test)]
mod changes;
#[cfg(test)]
mod deep;
#[cfg(test)]
mod depth;
#[cfg(test)]
mod given;
#[cfg(test)]
mod lists;
#[cfg(test)]
mod looks;
#[cfg(test)]
mod message_types;
#[cfg(test)]
mod messages_given;
#[cfg(test)]
mod operations;
#[cfg(test)]
mod rows;
#[cfg(test)]
mod scopes;
#[cfg(test)]
mod tokens;
#[cfg(test)]
mod told;
#[cfg(test)]
mod types;
#[cfg(test)]
mod values;
#[cfg(test)]
mod written;
