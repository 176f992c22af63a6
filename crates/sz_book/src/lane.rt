//! A lane: a load with the list of shards that it stands for.
ghost use Rattle.std.specs.Prelude.{◌≡◌, ◌++◌, ◌∷◌, [], IfOk, OnOk, IfErr};
ghost use Rattle.sz_book_rules.specs.History.{IsAmong, AreApart};

use crate::NoMemory;
use crate::load::Load;
use crate::receipt::Receipt;
use std::alloc::Global;
use std::marker::Model;
use sz_list::Items;

/// Shards, in order. They are counted from 0.
///
/// Contracts see a list.
pub type Shards = Items<u32>;

/// A load with the list of the shards that it stands for.
///
/// Contracts see the plan of the load, and the list.
pub struct Lane<T: Load> {
    load: T,
    shards: Shards,
    alloc: Global,
}

impl<T: Load> Drop for Lane<T> {
    fn drop(self) {
        let Lane {
            load: _,
            shards: _,
            alloc: _,
        } = self;
    }
}

impl<T: Load> Model for Lane<T> {
    ghost use Rattle.sz_book.specs.Lanes.{LaneData};

    ghost Value = { LaneData };

    ghost view = { λ lane. record { plan = T.plan lane.load; shards = lane.shards } };

    ghost invariant = { λ lane. T.stands lane.load lane.shards };
}

impl<T: Load> Lane<T> {
    /// A lane of a load that stands for no shard, with room for so many shards.
    pub fn new(alloc: Global, load: T, room: u32) -> Result<Lane<T>, NoMemory>
        requires empty { T.stands load [] }
        ensures value { IfOk result (λ lane. lane ≡ record { plan = T.plan load; shards = [] }) }
    {
        let shards = Items::with_capacity(alloc, room as usize)?;
        Ok(Lane {
            load,
            shards,
            alloc,
        })
    }

    /// Takes in what was made of one shard, whose settlement was won. `Err` hands both back where there was no memory.
    pub fn put(&mut self, receipt: Receipt, part: T) -> Result<(), (Receipt, T)>
        requires plan { (receipt.plan ≡ self.old.plan) × (T.plan part ≡ self.old.plan) }
        requires part { T.stands part (receipt.shard ∷ []) }
        requires fresh { ¬ IsAmong receipt.shard self.old.shards }
        ensures ok { OnOk result (self.new ≡ record { plan = self.old.plan; shards = self.old.shards ++ receipt.shard ∷ [] }) }
        ensures err { IfErr result (λ back. (back ≡ (receipt, part)) × (self.new ≡ self.old)) }
    {
        if self.shards.push(receipt.shard()).is_err() {
            return Err((receipt, part));
        }
        match self.load.absorb(part) {
            Ok(()) => Ok(()),
            Err(part) => {
                let _ = self.shards.pop();
                Err((receipt, part))
            }
        }
    }

    /// Takes in another lane. `Err` hands it back where there was no memory.
    pub fn merge(&mut self, other: Lane<T>) -> Result<(), Lane<T>>
        requires plan { other.plan ≡ self.old.plan }
        requires apart { AreApart self.old.shards other.shards }
        ensures ok { OnOk result (self.new ≡ record { plan = self.old.plan; shards = self.old.shards ++ other.shards }) }
        ensures err { IfErr result (λ back. (back ≡ other) × (self.new ≡ self.old)) }
    {
        let count = self.shards.len();
        let Ok(copy) = Items::copied(self.alloc, other.shards.as_slice()) else {
            return Err(other);
        };
        let Ok(()) = self.shards.append(copy) else {
            return Err(other);
        };
        let Lane {
            load,
            shards,
            alloc,
        } = other;
        match self.load.absorb(load) {
            Ok(()) => Ok(()),
            Err(load) => {
                self.shards.truncate(count);
                Err(Lane {
                    load,
                    shards,
                    alloc,
                })
            }
        }
    }

    /// The shards of the lane.
    pub fn shards(&self) -> &Shards
        ensures value { result.now ≡ self.now.shards }
    {
        &self.shards
    }

    /// The load and its shards.
    pub fn take(self) -> (T, Shards)
        ensures value { (T.plan result.0 ≡ self.plan) × T.stands result.0 result.1 × (result.1 ≡ self.shards) }
    {
        let Lane {
            load,
            shards,
            alloc: _,
        } = self;
        (load, shards)
    }
}
