//! Laws of the definitions, each a function that does nothing and whose contract is the law.
ghost use Rattle.std.specs.Prelude.{◌≡◌, ◌↔◌, ◌⊎◌, IsTrue};
ghost use Rattle.std.specs.List.{Contains};
ghost use Rattle.sz_types.specs.Data.{Shape, bytes};
ghost use Rattle.sz_types.specs.Same.{alike};
ghost use Rattle.sz_types.specs.Conversions.{converts_to, rows, IsProto};

/// Types that are alike are equal, and the other way round.
pub fn alike_is_equal()
    ensures value { (s t : Shape) → IsTrue (alike s t) ↔ (s ≡ t) }
{}

/// To be alike is an equivalence.
pub fn alike_is_an_equivalence()
    ensures itself { (s : Shape) → IsTrue (alike s s) }
    ensures turned { (s t : Shape) → IsTrue (alike s t) → IsTrue (alike t s) }
    ensures chained { (s t u : Shape) → IsTrue (alike s t) → IsTrue (alike t u) → IsTrue (alike s u) }
{}

/// A type converts to itself, by the rows of the table, and bytes to each proto type; there are no other conversions.
pub fn conversions_are_the_table()
    ensures value { (from to : Shape) → IsTrue (converts_to from to) ↔ ((from ≡ to) ⊎ (Contains rows (from, to) ⊎ ((from ≡ bytes) × IsProto to))) }
{}

/// Each type converts to itself.
pub fn a_type_converts_to_itself()
    ensures value { (s : Shape) → IsTrue (converts_to s s) }
{}
