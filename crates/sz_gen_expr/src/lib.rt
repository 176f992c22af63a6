//! Code in the making, and the code of expressions made.
#![tactic(auto)]

mod builder;
mod constants;
mod expr;
mod generate;
mod mark;
mod width;

pub use builder::Builder;
pub use constants::Constants;
pub use expr::count;
pub use generate::{gen_all, gen_closed, gen_expr};
pub use width::small;
/// There was no memory: the one answer of each call that takes memory which no clause speaks of.
pub use std::alloc::AllocError as NoMemory;
