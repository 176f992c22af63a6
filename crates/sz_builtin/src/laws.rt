//! Laws of the definitions, each a function that does nothing and whose contract is the law.
ghost use Rattle.sz_builtin.specs.Types.{KeepsUnary, KeepsBinary, KeepsIndex, KeepsSlice, KeepsBuiltin, KeepsConvert};

/// Where operands have types that an operator takes, a value that it gives has the type that the operator gives.
#[tactic(auto, using(crate::proofs::TypeLemmas::unary_keeps, crate::proofs::TypeLemmas::binary_keeps))]
pub fn operators_keep_types()
    ensures one { KeepsUnary }
    ensures two { KeepsBinary }
{}

/// Where operands have types of a row for an element, a part, a predeclared function or a conversion, what it gives has
/// the type of that row.
#[tactic(auto, using(crate::proofs::PartTypeLemmas::index_keeps, crate::proofs::PartTypeLemmas::slice_keeps, crate::proofs::PartTypeLemmas::builtin_keeps, crate::proofs::PartTypeLemmas::convert_keeps))]
pub fn parts_and_calls_keep_types()
    ensures element { KeepsIndex }
    ensures part { KeepsSlice }
    ensures call { KeepsBuiltin }
    ensures conversion { KeepsConvert }
{}
