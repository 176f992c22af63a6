//! Laws of the definitions, each a function that does nothing and whose contract is the law.
ghost use Rattle.std.specs.Prelude.{◌≡◌, ℕ, ◌+◌, [], ◌∷◌, Some};
ghost use Rattle.sz_value.specs.Data.{Datum};
ghost use Rattle.sz_world_rules.specs.World.{World, spend};
ghost use Rattle.sz_world_rules.specs.Slots.{Slot};
ghost use Rattle.sz_world_rules.specs.Stores.{Holds, stored};

/// What is left after ticks are taken, and what was taken, is what was left before; and no emit is added or lost.
pub fn what_is_spent_was_left()
    ensures left { (ticks : ℕ) (before after : World) → spend ticks before ≡ Some after → after.left + ticks ≡ before.left }
    ensures emits { (ticks : ℕ) (before after : World) → spend ticks before ≡ Some after → after.emits ≡ before.emits }
{}

/// A store without steps puts the value into the slot, whatever it held.
pub fn a_store_without_steps_is_the_value()
    ensures value { (old : Slot) (new : Datum) → stored old [] [] (Some new) ≡ Holds new }
{}
