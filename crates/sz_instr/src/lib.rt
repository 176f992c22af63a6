//! The machine's code as plain data: instructions, lines, routines and what they name by numbers; whether code is well formed; and what
//! a run of code is, as definitions with their laws.
#![tactic(auto)]

mod code;
mod instr;
mod laws;
mod line;
mod range;
mod routine;
mod run_laws;
mod step;

pub use code::Code;
pub use instr::Instr;
pub use laws::{
    a_local_in_range_is_one_of_a_routine, the_example_is_well_formed, well_formed_code_is_in_range,
};
pub use line::{Line, Lines};
pub use range::well_formed;
pub use routine::{Routine, Routines};
pub use run_laws::{a_run_emits_what_fits, a_run_ends_in_one_way};
pub use step::{Step, Steps};
