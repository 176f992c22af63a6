//! What bounds the quantified variables of a `when`.
#![tactic(auto)]

mod bound;
mod copying;
mod error;
mod fitting;
mod parts;
mod search;

pub use bound::{Bound, Bounds, Names};
pub use error::BoundsError;
pub use search::bounds;
