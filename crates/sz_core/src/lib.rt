//! The checked tree of a program: numbers stand for names, and each expression has its place and its type.
#![tactic(auto)]

mod allowed;
mod expr;
mod laws;
mod program;
mod stmt;

pub use allowed::is_allowed;
pub use expr::{CoreExpr, CorePair, Form};
pub use laws::{
    a_small_program_is_sound, items_are_sound_after_their_front, statics_emit_nothing,
    the_empty_program_is_sound, there_are_at_most_64_tables, types_are_well_formed,
    what_is_declared_before_is_a_front,
};
pub use program::{Function, Item, Program, Signature, Static};
pub use stmt::{CoreQuantity, CoreStep, CoreStmt, Quantified};
