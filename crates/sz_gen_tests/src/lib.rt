//! Tests of the compiler and of workers: programs, and for each its code, line by line; and what one attempt and one worker do.
#![tactic(auto)]

#[cfg(test)]
mod compiled;
#[cfg(test)]
mod given;
#[cfg(test)]
mod left;
#[cfg(test)]
mod one_attempt;
#[cfg(test)]
mod one_worker;
#[cfg(test)]
mod rows;
#[cfg(test)]
mod shown;
