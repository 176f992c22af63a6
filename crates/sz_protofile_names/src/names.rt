//! Names, each once, found by hashing.
ghost use Rattle.std.specs.Prelude.{◌≡◌, [], not, IfOk, ◌∷◌};
ghost use Rattle.std.specs.String.{string_bytes};
ghost use Rattle.sz_protofile.specs.Names.{has_name};
ghost use Rattle.sz_protofile.specs.Lookup.{with_name};
ghost use Rattle.sz_protofile_names.specs.Hashes.{AreHashed};

use crate::hashes::{Hashes, hashes_of};
use indexmap::IndexSet;
use std::alloc::Global;
use std::marker::Model;
use sz_types::NoMemory;

/// Names, each once, in the order in which they came.
///
/// Contracts see the list of their bytes.
pub struct Names {
    held: IndexSet<String>,
}

impl Drop for Names {
    fn drop(self) {
        let Names { held: _ } = self;
    }
}

impl Model for Names {
    ghost use Rattle.std.specs.Prelude.{ℕ, List, map};
    ghost use Rattle.std.specs.String.{string_bytes};

    ghost Value = { List (List ℕ) };

    ghost view = { λ names. map string_bytes names.held.keys };
}

impl Names {
    /// No names. It takes no memory.
    pub fn new(alloc: Global) -> Names
        ensures value { result ≡ [] }
    {
        Names {
            held: IndexSet::new(alloc),
        }
    }

    /// Whether the name is among them.
    pub fn has(&self, name: &str) -> bool
        ensures value { result ≡ has_name name.now self.now }
    {
        self.held.contains(name)
    }

    /// Takes the name, and says whether it is new.
    pub fn add(&mut self, name: String) -> Result<bool, NoMemory>
        ensures free { IfOk result (λ new. new ≡ not (has_name (string_bytes name) self.old)) }
        ensures ok { IfOk result (λ new. self.new ≡ with_name self.old (string_bytes name)) }
    {
        let (_, new) = self.held.insert_full(name)?;
        Ok(new)
    }

    // The hashes of the names.
    pub(crate) fn hashes(&self, alloc: Global) -> Result<Hashes, NoMemory>
        ensures all { IfOk result (λ hashes. AreHashed self.now hashes.keys) }
    {
        let hashes = hashes_of(alloc, self.held.as_slice())?;
        Ok(hashes)
    }
}
