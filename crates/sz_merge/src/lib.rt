//! Saved files joined one after the other, and the laws of joining.
#![tactic(auto)]

mod error;
mod groups;
mod joining_laws;
mod laws;
mod merging;
mod reading;

pub use error::MergeError;
pub use joining_laws::{joining_adds_emits, joining_forgets_the_order, saved_runs_join};
pub use laws::merging_forgets_the_order;
pub use merging::Merging;
