//! The meaning of programs as definitions, and functions that carry its laws. Nothing here evaluates a program.
#![tactic(auto)]

mod laws;

pub use laws::each_emit_takes_a_tick;
