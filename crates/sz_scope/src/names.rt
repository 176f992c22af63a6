//! The list of names, and its calls.
ghost use Rattle.std.specs.Prelude.{◌≡◌, ◌++◌, ◌∷◌, [], length, None, OnOk, OnErr};
ghost use Rattle.sz_scope.specs.Names.{place_of};

use crate::NoMemory;
use indexmap::IndexSet;
use std::alloc::Global;
use std::marker::Model;

/// Names, each once, in the order in which they were added. Places are counted from 0. A name is found by hashing.
///
/// Contracts see the list of the names' bytes.
pub struct Names {
    names: IndexSet<String>,
}

impl Drop for Names {
    fn drop(self) {
        let Names { names: _ } = self;
    }
}

impl Model for Names {
    ghost use Rattle.std.specs.Prelude.{ℕ, List, map};
    ghost use Rattle.std.specs.String.{string_bytes};

    ghost Value = { List (List ℕ) };

    ghost view = { λ names. map string_bytes names.names.keys };
}

impl Names {
    /// No names, which takes no memory. The list keeps the allocator for its calls.
    pub fn new(alloc: Global) -> Names
        ensures value { result ≡ [] }
    {
        Names {
            names: IndexSet::new(alloc),
        }
    }

    /// How many names there are.
    pub fn len(&self) -> usize
        ensures value { result ≡ length self.now }
    {
        self.names.len()
    }

    /// The place of the name, or `None` where it isn't there.
    pub fn find(&self, name: &str) -> Option<usize>
        ensures value { result ≡ place_of name.now self.now }
    {
        self.names.get_index_of(name)
    }

    /// Appends a name that isn't there. Where there is no memory all stays as it is.
    pub fn add(&mut self, name: &str) -> Result<(), NoMemory>
        requires absent { place_of name.now self.old ≡ None }
        ensures ok { OnOk result (self.new ≡ self.old ++ name.now ∷ []) }
        ensures err { OnErr result (self.new ≡ self.old) }
    {
        let name = String::from_str(*self.names.allocator(), name)?;
        self.names.insert(name)?;
        Ok(())
    }
}
