//! Names and numbers of fields, each with the full name of its message, found by hashing.
ghost use Rattle.std.specs.Prelude.{◌≡◌, [], not, IfOk, if◌then◌else◌, ◌++◌, ◌∷◌};
ghost use Rattle.std.specs.String.{string_bytes};
ghost use Rattle.sz_protofile.specs.Faults.{has_field, has_number, named, numbered};

use indexmap::IndexSet;
use std::alloc::Global;
use std::marker::Model;
use sz_types::NoMemory;

// The names of fields, each behind the full name of its message.
pub struct FieldNames {
    held: IndexSet<(String, String)>,
}

impl Drop for FieldNames {
    fn drop(self) {
        let FieldNames { held: _ } = self;
    }
}

impl Model for FieldNames {
    ghost use Rattle.std.specs.Prelude.{List, map};
    ghost use Rattle.std.specs.String.{string_bytes};
    ghost use Rattle.sz_protofile.specs.Faults.{Named, named};

    ghost Value = { List Named };

    ghost view = { λ names. map (λ key. named (string_bytes key.0) (string_bytes key.1)) names.held.keys };
}

impl FieldNames {
    // No names. It takes no memory.
    pub fn new(alloc: Global) -> FieldNames
        ensures value { result ≡ [] }
    {
        FieldNames {
            held: IndexSet::new(alloc),
        }
    }

    // Takes the name, and says whether it is new in its message.
    pub fn add(&mut self, owner: String, name: String) -> Result<bool, NoMemory>
        ensures free { IfOk result (λ new. new ≡ not (has_field (string_bytes owner) (string_bytes name) self.old)) }
        ensures ok { IfOk result (λ new. self.new ≡ (if new then self.old ++ named (string_bytes owner) (string_bytes name) ∷ [] else self.old)) }
    {
        let (_, new) = self.held.insert_full((owner, name))?;
        Ok(new)
    }
}

// The numbers of fields, each behind the full name of its message.
pub struct FieldNumbers {
    held: IndexSet<(String, u32)>,
}

impl Drop for FieldNumbers {
    fn drop(self) {
        let FieldNumbers { held: _ } = self;
    }
}

impl Model for FieldNumbers {
    ghost use Rattle.std.specs.Prelude.{List, map};
    ghost use Rattle.std.specs.String.{string_bytes};
    ghost use Rattle.sz_protofile.specs.Faults.{Numbered, numbered};

    ghost Value = { List Numbered };

    ghost view = { λ numbers. map (λ key. numbered (string_bytes key.0) key.1) numbers.held.keys };
}

impl FieldNumbers {
    // No numbers. It takes no memory.
    pub fn new(alloc: Global) -> FieldNumbers
        ensures value { result ≡ [] }
    {
        FieldNumbers {
            held: IndexSet::new(alloc),
        }
    }

    // Takes the number, and says whether it is new in its message.
    pub fn add(&mut self, owner: String, number: u32) -> Result<bool, NoMemory>
        ensures free { IfOk result (λ new. new ≡ not (has_number (string_bytes owner) number self.old)) }
        ensures ok { IfOk result (λ new. self.new ≡ (if new then self.old ++ numbered (string_bytes owner) number ∷ [] else self.old)) }
    {
        let (_, new) = self.held.insert_full((owner, number))?;
        Ok(new)
    }
}
