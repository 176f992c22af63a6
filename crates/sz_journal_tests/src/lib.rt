//! Tests of disks and journals: their entries as rows of data, and what is kept of them through calls that fail and crashes.
#![tactic(auto)]

#[cfg(test)]
mod calls;
#[cfg(test)]
mod crashes;
#[cfg(test)]
mod following;
#[cfg(test)]
mod jobs;
#[cfg(test)]
mod keeping;
#[cfg(test)]
mod rounds;
#[cfg(test)]
mod rows;
