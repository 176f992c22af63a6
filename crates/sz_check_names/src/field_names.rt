//! Names and numbers that are taken, found by hashing.
ghost use Rattle.std.specs.Prelude.{◌≡◌, ◌∷◌, [], not, IfOk, OnOk, if◌then◌else◌};
ghost use Rattle.sz_check_rules.specs.Refusals.{has_name};
ghost use Rattle.sz_check_names.specs.Parts.{has_number};
ghost use Rattle.sz_check_names.specs.Keeping.{is_new};

use crate::waiting::beside;
use indexmap::IndexSet;
use std::alloc::{AllocError, Global};
use std::marker::Model;
use sz_scope::{Meaning, ScopeError, Scopes};

// Names that are taken, the newest first. They are the declarations of a block.
pub struct TakenNames {
    stored: Scopes,
}

impl Drop for TakenNames {
    fn drop(self) {
        let TakenNames { stored: _ } = self;
    }
}

impl Model for TakenNames {
    ghost use Rattle.std.specs.Prelude.{◌≡◌, ℕ, List, length};
    ghost use Rattle.sz_check_names.specs.Parts.{names_in};

    ghost Value = { List (List ℕ) };

    ghost view = { λ t. names_in t.stored };

    ghost invariant = { λ t. length t.stored ≡ 1 };
}

// Whether a name was new in its block.
pub fn is_new(declared: Result<(), ScopeError>) -> Result<bool, AllocError>
    ensures value { result ≡ is_new declared }
{
    match declared {
        Ok(()) => Ok(true),
        Err(ScopeError::Twice) => Ok(false),
        Err(ScopeError::NoMemory) => Err(AllocError),
    }
}

// One block, which declares nothing.
pub fn one_block(alloc: Global) -> Result<Scopes, AllocError>
    ensures value { IfOk result (λ made. made ≡ [] ∷ []) }
{
    let mut scopes = Scopes::new(alloc)?;
    let (_, scopes) = beside(scopes.push(), scopes)?;
    Ok(scopes)
}

impl TakenNames {
    // No name is taken.
    pub fn new(alloc: Global) -> Result<TakenNames, AllocError>
        ensures value { IfOk result (λ made. made ≡ []) }
    {
        Ok(TakenNames {
            stored: one_block(alloc)?,
        })
    }

    // Takes a name, and says whether it was free.
    pub fn add(&mut self, name: &str) -> Result<bool, AllocError>
        ensures free { IfOk result (λ free. free ≡ not (has_name name.now self.old)) }
        ensures ok { IfOk result (λ free. self.new ≡ (if free then name.now ∷ self.old else self.old)) }
    {
        is_new(self.stored.declare(name, Meaning::Input))
    }
}

// Numbers that are taken, the newest first.
pub struct TakenNumbers {
    stored: IndexSet<u32>,
}

impl Drop for TakenNumbers {
    fn drop(self) {
        let TakenNumbers { stored: _ } = self;
    }
}

impl Model for TakenNumbers {
    ghost use Rattle.std.specs.Prelude.{ℕ, List, reverse};

    ghost Value = { List ℕ };

    ghost view = { λ t. reverse t.stored.keys };
}

impl TakenNumbers {
    // No number is taken. It takes no memory.
    pub fn new(alloc: Global) -> TakenNumbers
        ensures value { result ≡ [] }
    {
        TakenNumbers {
            stored: IndexSet::new(alloc),
        }
    }

    // Whether the number is taken.
    pub fn has(&self, number: u32) -> bool
        ensures value { result ≡ has_number number self.now }
    {
        self.stored.contains(&number)
    }

    // Takes a number, if it is free.
    pub fn add(&mut self, number: u32) -> Result<(), AllocError>
        ensures ok { OnOk result (self.new ≡ (if has_number number self.old then self.old else number ∷ self.old)) }
    {
        self.stored.insert(number)?;
        Ok(())
    }
}
