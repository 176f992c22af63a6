//! The records of an input that is read in pieces, run in rounds.
#![tactic(auto)]

mod done;
mod input_run;
mod intake;
mod stop;
mod tables;

pub use done::Done;
pub use input_run::{PIECE_BYTES, fill, run_at_hand, run_bytes, run_file};
pub use intake::Intake;
pub use stop::Stop;
pub use tables::InputTables;
