//! Laws of the definition, each a function that does nothing and whose contract is the law.
ghost use Rattle.sz_types.specs.Laws.{HaveOneType, HaveTypesOfParts};

/// A truth value, a number, a time, a text or a list of bytes has the one type of its kind.
#[tactic(auto, using(crate::proofs::TypeLemmas::simple_values_have_one_type))]
pub fn simple_values_have_one_type()
    ensures one { HaveOneType }
{}

/// An array has no types but array types, and of these each that all its elements have the element type of; a map has no types but
/// map types, the same of its keys and its values.
#[tactic(auto, using(crate::proofs::TypeLemmas::compounds_have_the_types_of_their_parts))]
pub fn compounds_have_the_types_of_their_parts()
    ensures parts { HaveTypesOfParts }
{}
