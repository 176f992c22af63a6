//! The code of programs, as definitions with their laws: that of expressions, of statements and of whole programs, and that this code
//! does what is meant. Nothing runs here; `sz_gen_expr` and `sz_gen_stmt` make the code.
#![tactic(auto)]

mod laws;

pub use laws::{
    an_empty_program_has_code, code_of_a_sound_program_is_compiled, the_code_does_what_is_meant,
    the_example_has_its_code,
};
