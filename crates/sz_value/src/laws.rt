//! Laws of the definitions, each a function that does nothing and whose contract is the law.
ghost use Rattle.std.specs.Prelude.{◌≡◌, ◌↔◌, List};
ghost use Rattle.std.specs.Cmp.{IsTotalOrder};
ghost use Rattle.std.specs.declared.cmp.Ordering.TheVariants.{Equal};
ghost use Rattle.sz_value.specs.Data.{Datum};
ghost use Rattle.sz_value.specs.Order.{compare};
ghost use Rattle.sz_value.specs.Laws.{ComparesByParts, WeighsItsParts, SetsItsKey};

/// The order of values is total: two values turned round compare the other way round, what lies below the lower
/// lies below the greater, and what compares as equal compares alike with all.
pub fn order_is_total()
    ensures total { IsTotalOrder compare }
{}

/// Two values compare as equal exactly where they are the same.
pub fn ties_are_equal()
    ensures ties { (first second : Datum) → (compare first second ≡ Equal) ↔ (first ≡ second) }
{}

/// Arrays and tuples compare as lists do, by the first parts that differ, and maps as lists of pairs.
pub fn compounds_compare_by_parts()
    ensures parts { ComparesByParts }
{}

/// What is made of parts weighs 1 more than all of them, and the parts of a map are its keys and its values.
pub fn compounds_weigh_their_parts()
    ensures parts { WeighsItsParts }
{}

/// Pairs with one more have its value at its key, and at each other key what they had before. Of two values at one
/// key the later stands.
pub fn a_pair_sets_its_key()
    ensures sets { (key value : Datum) (pairs : List (Datum × Datum)) → SetsItsKey key value pairs }
{}
