//! The lines of code.

use crate::instr::Instr;
use sz_list::Items;
use sz_types::Place;

/// An instruction in its code.
pub struct Line {
    pub instr: Instr,
    /// How many ticks are taken before the instruction acts. What its result weighs comes on top.
    pub charge: u32,
    /// The place in the program's text that a fault at this line has.
    pub place: Place,
}

impl Drop for Line {
    fn drop(self) {
        let Line {
            instr: _,
            charge: _,
            place: _,
        } = self;
    }
}

/// The lines of code, in order. Places are counted from 0.
pub type Lines = Items<Line>;
