//! What stands before a line of a file.
ghost use Rattle.std.specs.Prelude.{◌≡◌};
ghost use Rattle.sz_protofile.specs.Faults.{nothing_before};
ghost use Rattle.sz_protofile_names.specs.Seen.{seen_before};

use crate::members::{FieldNames, FieldNumbers};
use crate::names::Names;
use crate::scopes::Open;
use std::alloc::Global;

// What stands before a line.
pub struct Before {
    // The messages that are open, the innermost last.
    pub around: Vec<Open>,
    // The names of messages and enums, as programs see them.
    pub names: Names,
    pub fields: FieldNames,
    pub numbers: FieldNumbers,
}

impl Drop for Before {
    fn drop(self) {
        let Before {
            around: _,
            names: _,
            fields: _,
            numbers: _,
        } = self;
    }
}

impl Before {
    // Nothing stands before the first line. It takes no memory.
    pub fn new(alloc: Global) -> Before
        ensures value { seen_before result ≡ nothing_before }
    {
        Before {
            around: Vec::new(alloc),
            names: Names::new(alloc),
            fields: FieldNames::new(alloc),
            numbers: FieldNumbers::new(alloc),
        }
    }
}
