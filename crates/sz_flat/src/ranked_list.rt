//! Lists of values that are lent with their ranks.
ghost use Rattle.std.specs.Prelude.{◌≡◌};
ghost use Rattle.std.specs.Cmp.Lexicographic.{slice_cmp};
ghost use Rattle.sz_value.specs.Order.{compare};

use crate::flat_list::FlatList;
use std::cmp::Ordering;
use std::marker::Model;

/// A list of values that is lent with its rank, a number that tells of most lists which is the lesser. So a vector of them is sorted with
/// few looks at the lists themselves, which may lie anywhere.
///
/// Contracts see the list of the values as plain data.
#[derive(Drop)]
pub struct RankedList<'a> {
    list: &'a FlatList,
    rank: u64,
}

impl<'a> Model for RankedList<'a> {
    ghost use Rattle.std.specs.Prelude.{List};
    ghost use Rattle.sz_value.specs.Data.{Datum};
    ghost use Rattle.sz_value.specs.Code.{parts_code};
    ghost use Rattle.sz_flat.specs.Rank.{IsRank};

    ghost Value = { List Datum };

    ghost coded = { parts_code };

    ghost view = { λ ranked. ranked.list.now };

    ghost invariant = { λ ranked. IsRank ranked.list.now ranked.rank };
}

impl<'a> RankedList<'a> {
    /// The list, with its rank. It takes no memory.
    pub fn new(list: &'a FlatList) -> RankedList<'a>
        ensures value { result ≡ list.now }
    {
        RankedList {
            list,
            rank: list.rank(),
        }
    }

    /// The list.
    pub fn list(&self) -> &'a FlatList
        ensures value { result.now ≡ self.now }
    {
        self.list
    }

    /// How the two lists compare, value by value. The lists themselves are looked at only where their ranks are equal.
    pub fn order(&self, other: &RankedList<'a>) -> Ordering
        ensures value { result ≡ slice_cmp compare self.now other.now }
    {
        match self.rank.cmp(&other.rank) {
            Ordering::Equal => self.list.order(other.list),
            apart => apart,
        }
    }
}
