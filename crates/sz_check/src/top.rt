//! What is known at the top level.
use sz_check_names::Known;
use sz_core::Signature;

// What is known in front of a statement at the top level, how many tables and statics are declared, and the functions.
#[derive(Drop)]
pub struct Top {
    pub known: Known,
    pub tables: u32,
    pub statics: u32,
    pub functions: Vec<Signature>,
}
