//! What the lines of code do to the state of a run: its rows.
#![tactic(auto)]

mod emitted;
mod emitting;
mod flow;
mod rows;
mod run_state;
mod storing;
mod text;

pub use emitted::Emitted;
pub use run_state::{
    BUDGET_PASSED, CALLS_TOO_DEEP, Onward, RunState, STORE_OUTSIDE, UNDEFINED_USED, if_paid,
    if_passed, rebuilt,
};
pub use sz_value::NoMemory;
