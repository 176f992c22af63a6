//! Lists of values that are kept flat.
ghost use Rattle.std.specs.Prelude.{◌≡◌, ◌==◌, [], length, IfOk, OnOk, OnErr};
ghost use Rattle.std.specs.Cmp.Lexicographic.{slice_cmp};
ghost use Rattle.sz_value.specs.Data.{data_of};
ghost use Rattle.sz_value.specs.Order.{compare};
ghost use Rattle.sz_flat.specs.Spelling.{HaveShortLengths};
ghost use Rattle.sz_flat.specs.Lists.{Spelled, same_values, list_writes};
ghost use Rattle.sz_flat.specs.Digest.{list_digest};
ghost use Rattle.sz_flat.specs.Rank.{IsRank};
ghost use Rattle.sz_flat.specs.Kept.{spelled_prop, same_values_per, same_values_equiv, same_values_hash_alike};

use crate::NoMemory;
use crate::comparing::order_all;
use crate::digest::digest_of;
use crate::error::FlatError;
use crate::kept_bytes::KeptBytes;
use crate::rank::rank_all;
use crate::reading::read_all;
use std::alloc::{AllocError, Global};
use std::cmp::Ordering;
use std::hash::{Hash, Hasher};
use std::marker::Model;
use sz_value::List;

/// A list of values, kept as the bytes that spell them, one after the other. Two lists are equal exactly where their bytes are, so it
/// is tested for equality and hashed by its bytes. A table keeps one for each of its index lists, so a copy has few bytes in place.
///
/// Contracts see the list of the values as plain data.
pub struct FlatList {
    bytes: KeptBytes,
    ghost spelled: { Spelled bytes } by { spelled_prop bytes },
}

impl Drop for FlatList {
    fn drop(self) {
        let FlatList { bytes: _ } = self;
    }
}

impl Model for FlatList {
    ghost use Rattle.std.specs.Prelude.{List};
    ghost use Rattle.sz_value.specs.Data.{Datum};
    ghost use Rattle.sz_value.specs.Code.{parts_code};

    ghost Value = { List Datum };

    ghost coded = { parts_code };

    ghost view = { λ list. list.spelled.0 };
}

impl FlatList {
    /// A list of no values, which takes no memory.
    pub fn new(alloc: Global) -> FlatList
        ensures value { result ≡ [] }
    {
        FlatList {
            bytes: KeptBytes::new(alloc),
        }
    }

    /// Takes these values in the stead of its own. It keeps its room for the next ones, so it takes memory only where it has no block
    /// with room for as many bytes. Where there is none it has no values.
    pub fn set(&mut self, values: &List) -> Result<(), NoMemory>
        requires short { HaveShortLengths (data_of values.now) }
        ensures ok { OnOk result (self.new ≡ values.now) }
        ensures err { OnErr result (self.new ≡ []) }
    {
        self.bytes.spell(values)
    }

    /// The same values once more, with room for no others. Where few bytes spell them it takes no memory.
    pub fn copied(&self, alloc: Global) -> Result<FlatList, NoMemory>
        ensures value { IfOk result (λ list. list ≡ self.now) }
    {
        let bytes = KeptBytes::copied(alloc, self.bytes.as_slice())?;
        Ok(FlatList { bytes })
    }

    /// The values, in order.
    pub fn values(&self, alloc: Global) -> Result<List, NoMemory>
        ensures value { IfOk result (λ list. list ≡ self.now) }
    {
        match read_all(alloc, self.bytes.as_slice()) {
            Ok(list) => Ok(list),
            Err(FlatError::NoMemory) => Err(AllocError),
            Err(FlatError::NotFlat) => unreachable!(),
        }
    }

    /// Whether there are no values.
    pub fn is_empty(&self) -> bool
        ensures value { result ≡ (length self.now == 0) }
    {
        self.bytes.as_slice().is_empty()
    }

    // The rank of the values.
    pub(crate) fn rank(&self) -> u64
        ensures value { IsRank self.now result }
    {
        rank_all(self.bytes.as_slice())
    }

    /// How the two lists compare, value by value. Nothing is read back, and it takes no memory.
    pub fn order(&self, other: &FlatList) -> Ordering
        ensures value { result ≡ slice_cmp compare self.now other.now }
    {
        order_all(self.bytes.as_slice(), other.bytes.as_slice())
    }

    /// A number below 256 that lists with the same values share, by which lists can be dealt out evenly.
    pub fn digest(&self) -> u32
        ensures value { result ≡ list_digest self.now }
    {
        digest_of(self.bytes.as_slice())
    }
}

impl PartialEq for FlatList {
    ghost eq = { same_values };

    ghost laws = { same_values_per };

    fn eq(&self, other: &FlatList) -> bool {
        self.bytes.as_slice() == other.bytes.as_slice()
    }
}

impl Eq for FlatList {
    ghost laws = { same_values_equiv };
}

impl Hash for FlatList {
    ghost hash_input = { list_writes };

    ghost respects_eq = { same_values_hash_alike };

    fn hash<H: Hasher>(&self, state: &mut H) {
        state.write(self.bytes.as_slice());
    }
}
