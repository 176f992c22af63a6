//! Ranks of weights: the least rank comes first.
ghost use Rattle.std.specs.Prelude.{◌≡◌, Some, IsSome};
ghost use Rattle.std.specs.Int.{w64};
ghost use Rattle.std.specs.Int.RustNames.{FitsSigned};
ghost use Rattle.sz_extreme.specs.Ranks.{turned};

use sz_types::TableKind;

// The rank of the weight, which is there.
pub(crate) fn rank_of(kind: TableKind, weight: Option<i64>) -> i64
    requires weighted { IsSome weight }
    ensures value { Some (turned kind result) ≡ weight }
    ensures fits { FitsSigned w64 result }
{
    turned(kind, weight.unwrap())
}

// The rank of a weight, and the weight of a rank. A maximum turns the order round: minus one and minus the weight falls as the
// weight rises, and stays within 64 bits.
pub(crate) fn turned(kind: TableKind, number: i64) -> i64
    ensures value { result ≡ turned kind number }
{
    match kind {
        TableKind::Maximum => -1 - number,
        TableKind::Minimum | TableKind::Sum | TableKind::Set | TableKind::Collection => number,
    }
}
