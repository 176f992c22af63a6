//! The top call: it runs a program over the records of a file, also as a job that is resumed, and prints or saves its tables; or it checks a
//! program, joins saved tables, or tests itself.
#![tactic(auto)]

mod answer;
mod failure;
mod heights;
mod in_memory;
mod judge;
mod laws;
mod lines;
mod merging;
mod opening;
mod program_run;
mod proto;
mod reserved;
mod resuming;
mod savable;
mod selftest;
mod setup;
mod status;
mod top;

pub use heights::Stack;
pub use in_memory::szl_in_memory;
pub use laws::{
    files_are_read_once, merged_runs_are_one_run, merging_ends_once, outcomes_forget_the_deaths,
    outcomes_forget_the_workers, readings_are_unique, sizes_are_shards,
};
pub use setup::Setup;
pub use status::Status;
pub use top::{szl_disk_main, szl_disk_main_on, szl_main};
