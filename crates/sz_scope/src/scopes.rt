//! The open blocks with their declarations.
ghost use Rattle.std.specs.Prelude.{◌≡◌, ◌+◌, ◌-◌, ◌^◌, ◌<◌, ◌↔◌, [], ◌∷◌, drop, length, nat_lt, IsTrue, IsErr, Err, IfOk, OnOk, OnErr};
ghost use Rattle.std.specs.Option.{option_copied};
ghost use Rattle.sz_scope.specs.Blocks.{found, is_declared, with_declared};
ghost use Rattle.sz_scope.specs.Sight.{seen_blocks};

use crate::chain::{find_seen, is_twice, newest_entry, place_for, push_entry, remove_deeper};
use crate::entry::Entry;
use crate::error::ScopeError;
use crate::meaning::Meaning;
use crate::sight::Sight;
use crate::{Names, NoMemory};
use std::alloc::{AllocError, Global};
use std::marker::Model;

/// How many declarations have room at first.
const FIRST_ROOM: usize = 4;

/// The blocks that are open, each with its declarations.
///
/// Contracts see the list of the blocks, the innermost first, and each as the list of its declarations, the newest first.
pub struct Scopes {
    names: Names,
    // For each name the place of its newest declaration in an open block.
    newest: Vec<Option<usize>>,
    // The declarations of all open blocks, the oldest first.
    entries: Vec<Entry>,
    // How many blocks are open.
    depth: usize,
}

impl Drop for Scopes {
    fn drop(self) {
        let Scopes {
            names: _,
            newest: _,
            entries: _,
            depth: _,
        } = self;
    }
}

impl Model for Scopes {
    ghost use Rattle.std.specs.Prelude.{List, reverse};
    ghost use Rattle.sz_scope.specs.Blocks.{Block};
    ghost use Rattle.sz_scope.specs.Chain.{blocks_of, IsSound};

    ghost Value = { List Block };

    ghost view = { λ s. blocks_of s.names (reverse s.entries.items) s.depth };

    ghost invariant = { λ s. IsSound s.names s.newest.items (reverse s.entries.items) s.depth };
}

impl Scopes {
    /// No block is open. It takes the memory of the first few declarations, and keeps the allocator for its calls.
    pub fn new(alloc: Global) -> Result<Scopes, NoMemory>
        ensures value { IfOk result (λ scopes. scopes ≡ []) }
    {
        Ok(Scopes {
            names: Names::new(alloc),
            newest: Vec::with_capacity(alloc, FIRST_ROOM)?,
            entries: Vec::with_capacity(alloc, FIRST_ROOM)?,
            depth: 0,
        })
    }

    /// How many blocks are open.
    pub fn depth(&self) -> usize
        ensures value { result ≡ length self.now }
    {
        self.depth
    }

    /// Opens a block inside the innermost one. It takes no memory, and fails only where no more blocks can be counted.
    pub fn push(&mut self) -> Result<(), NoMemory>
        ensures ok { OnOk result (self.new ≡ [] ∷ self.old) }
        ensures err { OnErr result (self.new ≡ self.old) }

        ensures full { IsErr result ↔ (length self.old ≡ 2 ^ 64 - 1) }
    {
        if self.depth == usize::MAX {
            return Err(AllocError);
        }
        self.depth += 1;
        Ok(())
    }

    /// Closes the innermost block, and says whether one was open.
    pub fn pop(&mut self) -> bool
        ensures value { self.new ≡ drop 1 self.old }

        ensures none { result ≡ nat_lt 0 (length self.old) }
    {
        if self.depth == 0 {
            return false;
        }
        let depth = self.depth - 1;
        remove_deeper(&mut self.entries, &mut self.newest, depth);
        self.depth = depth;
        true
    }

    /// Declares a name in the innermost block. A block must be open. `Twice` exactly where the innermost block has the name already;
    /// then, and where there is no memory, the blocks stay as they were.
    pub fn declare(&mut self, name: &str, what: Meaning) -> Result<(), ScopeError>
        requires within { 0 < length self.old }
        ensures ok { OnOk result (self.new ≡ with_declared (record { name = name.now; what = what }) self.old) }
        ensures err { OnErr result (self.new ≡ self.old) }

        ensures twice { (result ≡ Err ScopeError.Twice) ↔ IsTrue (is_declared name.now self.old) }
    {
        let depth = self.depth - 1;
        let known = self.names.find(name);
        if is_twice(
            self.entries.as_slice(),
            self.newest.as_slice(),
            known,
            depth,
        ) {
            return Err(ScopeError::Twice);
        }
        let name = place_for(&mut self.names, &mut self.newest, name, known)?;
        let hidden = self.newest[name];
        let entry = Entry {
            name,
            depth,
            what,
            hidden,
        };
        push_entry(&mut self.entries, &mut self.newest, entry)?;
        Ok(())
    }

    /// What a name means where everything is seen: what it means in the innermost block that has it. None where no block has it.
    pub fn find(&self, name: &str) -> Option<&Meaning>
        ensures value { option_copied result ≡ found name.now self.now }
    {
        let name = self.names.find(name)?;
        newest_entry(self.entries.as_slice(), self.newest[name])
    }

    /// What a name means at a place from where not everything is seen: a name that isn't seen counts as absent from its block,
    /// and the search goes on outward.
    pub fn find_seen(&self, name: &str, sight: Sight) -> Option<&Meaning>
        ensures value { option_copied result ≡ found name.now (seen_blocks sight self.now) }
    {
        let name = self.names.find(name)?;
        find_seen(self.entries.as_slice(), self.newest[name], sight)
    }
}
