//! What the meaning of programs and the machine both speak of: worlds, slots, operations on slots, ticks, emits, candidates and
//! stores. Nothing here runs.
#![tactic(auto)]

mod laws;

pub use laws::{a_store_without_steps_is_the_value, what_is_spent_was_left};
