//! A list of shards that has its room from the start.
ghost use Rattle.std.specs.Prelude.{◌≡◌, ◌+◌, ◌≤◌, [], ◌++◌, length, IfOk};

use crate::NoMemory;
use std::alloc::Global;
use std::marker::Model;

/// Shards, in order, with room for so many. Memory is taken where it is made, and by no later call.
///
/// Contracts see the room and the shards.
pub struct Reserved {
    kept: Vec<u32>,
    room: usize,
}

impl Drop for Reserved {
    fn drop(self) {
        let Reserved { kept: _, room: _ } = self;
    }
}

impl Model for Reserved {
    ghost use Rattle.std.specs.Prelude.{◌≤◌};
    ghost use Rattle.std.specs.Vec.{vec_capacity};
    ghost use Rattle.sz_book.specs.Cores.{ReservedData};

    ghost Value = { ReservedData };

    ghost view = { λ list. record { room = list.room; shards = list.kept.items } };

    ghost invariant = { λ list. list.room ≤ vec_capacity list.kept };
}

impl Reserved {
    /// No shards, with room for so many.
    pub fn new(alloc: Global, room: usize) -> Result<Reserved, NoMemory>
        ensures value { IfOk result (λ list. list ≡ record { room = room; shards = [] }) }
    {
        let kept = Vec::with_capacity(alloc, room)?;
        Ok(Reserved { kept, room })
    }

    /// Puts these shards after the list.
    pub fn add(&mut self, shards: &[u32])
        requires room { length self.old.shards + length shards.now ≤ self.old.room }
        ensures value { self.new ≡ record { room = self.old.room; shards = self.old.shards ++ shards.now } }
    {
        let _ = self.kept.extend_from_slice(shards);
    }

    /// The shards.
    pub fn as_slice(&self) -> &[u32]
        ensures value { result.now ≡ self.now.shards }
    {
        self.kept.as_slice()
    }
}
