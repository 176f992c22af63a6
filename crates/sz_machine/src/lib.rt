//! The machine that runs code: on a record with the statics, or for the statics themselves.
#![tactic(auto)]

mod acting;
mod asked;
mod code_run;
mod ends;
mod octets;
mod quick;

pub use code_run::{Room, run, run_statics};
pub use ends::{Fault, RunEnd, StaticsEnd};
pub use sz_value::NoMemory;
