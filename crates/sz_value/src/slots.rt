//! Lists of slots: a stack's operands, or the variables of a routine.
ghost use Rattle.std.specs.Prelude.{◌≡◌, ◌==◌, ◌<◌, ◌++◌, ◌∷◌, [], length, take, set, IfOk, IfSome, IfNone, OnOk, OnErr, slice_get, Some};
ghost use Rattle.sz_value.specs.Seen.{seen_slot};

use crate::NoMemory;
use crate::value::Value;
use std::alloc::Global;
use std::marker::Model;

/// A value, or none where the program's value is undefined.
///
/// Contracts see it by `seen_slot` of `specs/Seen.antt`.
#[derive(Debug, Drop)]
pub enum Slot {
    Defined(Value),
    Undefined,
}

/// A list of slots. Places are counted from 0.
///
/// Contracts see a list with an `Option` of plain data for each slot, `None` where the slot is undefined.
#[derive(Debug)]
pub struct Slots {
    slots: Vec<Slot>,
}

impl Drop for Slots {
    fn drop(self) {
        let Slots { slots: _ } = self;
    }
}

impl Model for Slots {
    ghost use Rattle.std.specs.Prelude.{List, map, Option};
    ghost use Rattle.sz_value.specs.Data.{Datum};
    ghost use Rattle.sz_value.specs.Code.{slots_code};

    ghost Value = { List (Option Datum) };

    ghost coded = { slots_code };

    ghost use Rattle.sz_value.specs.Seen.{seen_slot};

    ghost view = { λ slots. map seen_slot slots.slots.items };
}

impl Slots {
    /// A list of no slots, which takes no memory. It keeps the allocator for its calls.
    pub fn new(alloc: Global) -> Slots
        ensures value { result ≡ [] }
    {
        Slots {
            slots: Vec::new(alloc),
        }
    }

    /// A list of no slots, with room for `capacity` of them.
    pub fn with_capacity(alloc: Global, capacity: usize) -> Result<Slots, NoMemory>
        ensures value { IfOk result (λ slots. slots ≡ []) }
    {
        let slots = Vec::with_capacity(alloc, capacity)?;
        Ok(Slots { slots })
    }

    /// The number of slots.
    pub fn len(&self) -> usize
        ensures value { result ≡ length self.now }
    {
        self.slots.len()
    }

    /// Whether there are no slots.
    pub fn is_empty(&self) -> bool
        ensures value { result ≡ (length self.now == 0) }
    {
        self.slots.is_empty()
    }

    /// Appends the slot. Where there is no memory the slot is dropped.
    pub fn push(&mut self, slot: Slot) -> Result<(), NoMemory>
        ensures ok { OnOk result (self.new ≡ self.old ++ seen_slot slot ∷ []) }
        ensures err { OnErr result (self.new ≡ self.old) }
    {
        self.slots.push(slot)?;
        Ok(())
    }

    /// Removes the last slot, if there is one.
    pub fn pop(&mut self) -> Option<Slot>
        ensures found { IfSome result (λ slot. self.old ≡ self.new ++ seen_slot slot ∷ []) }
        ensures none { IfNone result ((self.old ≡ []) × (self.new ≡ [])) }
    {
        self.slots.pop()
    }

    /// The slot at a place.
    pub fn get(&self, index: usize) -> &Slot
        requires within { index < length self.now }
        ensures value { slice_get self.now index ≡ Some (seen_slot result.now) }
    {
        &self.slots[index]
    }

    /// Puts the slot in the stead of that at a place, which is dropped.
    pub fn set(&mut self, index: usize, slot: Slot)
        requires within { index < length self.old }
        ensures value { self.new ≡ set self.old index (seen_slot slot) }
    {
        self.slots[index] = slot;
    }

    /// Keeps the first `count` slots, or all where there are no more.
    pub fn truncate(&mut self, count: usize)
        ensures value { self.new ≡ take count self.old }
    {
        self.slots.truncate(count);
    }
}
