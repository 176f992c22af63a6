//! The law of the declarations of checked programs: they can stand in a saved file. It is a function that does nothing and whose
//! contract is the law.
#![tactic(auto)]

mod laws;

pub use laws::tables_have_spellings;
