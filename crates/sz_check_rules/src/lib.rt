//! What a program's syntax tree is judged to be, as definitions with their laws: the checked program, or the first refusal. What runs
//! here is the table of the causes alone; `sz_check_names`, `sz_check_expr`, `sz_check_emits` and `sz_check` judge by these definitions.
#![tactic(auto)]

mod cause;
mod laws;

pub use cause::Cause;
pub use laws::{
    a_small_program_is_judged, first_types_are_those_of_the_rows, judged_programs_are_sound,
    types_may_be_written_first,
};
