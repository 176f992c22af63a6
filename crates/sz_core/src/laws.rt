//! Laws of the definitions, each a function that does nothing and whose contract is the law.
ghost use Rattle.std.specs.Prelude.{◌≡◌, ◌≤◌, ℕ, List, [], ◌∷◌, ◌++◌, length, true, false};
ghost use Rattle.std.specs.List.{All};
ghost use Rattle.sz_core.specs.Nodes.{Node, type_of};
ghost use Rattle.sz_core.specs.Programs.{Core, Function, Item, function, core_of, tables_of, statics_of};
ghost use Rattle.sz_core.specs.WellFormed.{is_well_formed};
ghost use Rattle.sz_core.specs.Typing.{Sight, HasFormedTypes, IsNode};
ghost use Rattle.sz_core.specs.Emitting.{node_emits};
ghost use Rattle.sz_core.specs.Example.{small_items};
ghost use Rattle.sz_core.specs.Sound.{IsSound, AreItems, BeginsWith, declared_by, record_sight, static_sight, function_sight};

/// The program that has no items and no variables is sound.
pub fn the_empty_program_is_sound()
    ensures value { IsSound (core_of [] []) }
{}

/// A program that emits what a function of its own gives is sound: `small_items` of `specs/Example.antt`.
pub fn a_small_program_is_sound()
    ensures value { IsSound (core_of small_items []) }
{}

/// A sound program has at most 64 tables.
pub fn there_are_at_most_64_tables()
    ensures value { (program : Core) → IsSound program → length (tables_of program.items) ≤ 64 }
{}

/// The items after any front of a sound program are sound after what the front declares.
pub fn items_are_sound_after_their_front()
    ensures value { (program : Core) (front rest : List Item) → IsSound program → program.items ≡ front ++ rest
        → (seen : List ℕ) × AreItems program.locals seen (declared_by front) rest }
{}

/// What a front of the items declares is the front of what all of them declare.
pub fn what_is_declared_before_is_a_front()
    ensures statics { (front rest : List Item) → BeginsWith (declared_by front).statics (declared_by (front ++ rest)).statics }
    ensures functions { (front rest : List Item) → BeginsWith (declared_by front).functions (declared_by (front ++ rest)).functions }
    ensures tables { (front rest : List Item) → BeginsWith (declared_by front).tables (declared_by (front ++ rest)).tables }
{}

/// Evaluating a static of a sound program emits nothing, whichever functions of the program it calls.
pub fn statics_emit_nothing()
    ensures value { (program : Core) → IsSound program
        → All (λ s. node_emits (declared_by program.items).functions s.value ≡ false) (statics_of program.items) }
{}

/// The type of an expression that has its type is well formed, where those of what can be used are; and they are wherever an
/// expression stands in a sound program: in a record's statements, in a static and in a function.
pub fn types_are_well_formed()
    ensures expressions { (g : Sight) (e : Node) → HasFormedTypes g → IsNode g e → is_well_formed (type_of e) ≡ true }
    ensures records { (program : Core) (front rest : List Item) (seen : List ℕ) → IsSound program → program.items ≡ front ++ rest
        → HasFormedTypes (record_sight program.locals seen (declared_by front)) }
    ensures statics { (program : Core) (front rest : List Item) → IsSound program → program.items ≡ front ++ rest
        → HasFormedTypes (static_sight (declared_by front)) }
    ensures functions { (program : Core) (front rest : List Item) (f : Function) → IsSound program → program.items ≡ front ++ function f ∷ rest
        → HasFormedTypes (function_sight (declared_by front) f) }
{}
