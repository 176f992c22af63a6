//! Code.

use crate::line::Lines;
use crate::routine::{Routine, Routines};
use sz_types::{TableDecls, Tys};
use sz_value::List;

/// The code of a program: its lines, the routines that begin at some of them, and what instructions name by numbers from 0.
///
/// Contracts see the record of these lists, each as they see the list alone. Nothing is kept of how they belong together:
/// that is what `well_formed` answers.
pub struct Code {
    pub lines: Lines,
    /// The functions that the program declares, in the order of their declarations.
    pub functions: Routines,
    /// What computes the statics, each on its own, in the order of their declarations. It is entered without arguments.
    pub statics: Routines,
    /// What is done for each record. It is entered without arguments.
    pub main: Routine,
    /// The values that `Push` pushes.
    pub constants: List,
    /// The types that `Convert` converts to, and those that `Decode` decodes by.
    pub types: Tys,
    /// The tables that `Emit` emits to, in the order of their declarations.
    pub tables: TableDecls,
    /// The table that counts the lines of the text at which an undefined value was used, if they are counted: one of `tables`.
    pub ignore: Option<u32>,
}

impl Drop for Code {
    fn drop(self) {
        let Code {
            lines: _,
            functions: _,
            statics: _,
            main: _,
            constants: _,
            types: _,
            tables: _,
            ignore: _,
        } = self;
    }
}
