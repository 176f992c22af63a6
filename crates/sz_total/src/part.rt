//! A part of the index lists of a table.
ghost use Rattle.std.specs.Prelude.{◌≡◌, ◌<◌, ◌≤◌, ◌+◌, ◌-◌, ◌^◌, [], ◌∷◌, ◌++◌, None, length, IfOk, OnOk, OnErr};
ghost use Rattle.std.specs.Map.{lookup};
ghost use Rattle.sz_types.specs.SeenTables.{seen_table};
ghost use Rattle.sz_tabs.specs.Fitting.{Fits};
ghost use Rattle.sz_tabs.specs.Rows.{brought_by};
ghost use Rattle.sz_total.specs.Entries.{AreOfTable, TakesEmit, same_indexes};
ghost use Rattle.sz_total.specs.Joining.{AreAlike, LooksTheSame};
ghost use Rattle.sz_total.specs.Parts.{empty_part, HasPartRoom, MayJoin, Settles};
ghost use Rattle.sz_total.specs.Short.{HasShortParts};
ghost use Rattle.sz_total.specs.Weights.{HasItsWeights};

use crate::aggregate::Aggregate;
use crate::index_lists::{IndexLists, no_lists, take_emit, take_hashed};
use crate::joining::{make_room, take_all};
use std::alloc::Global;
use std::marker::Model;
use std::mem;
use sz_flat::FlatList;
use sz_tabs::{Emit, NoMemory};
use sz_types::TableDecl;

/// The aggregators of a part of the index lists of a table, for how many there is room, and those that wait to be joined with them, so
/// that each part can be joined by a thread of its own with no memory. But in a merge none wait, which takes no memory.
#[derive(Drop)]
pub(crate) struct Part<'a> {
    room: usize,
    lists: IndexLists<'a>,
    arriving: IndexLists<'a>,
}

impl<'a> Model for Part<'a> {
    ghost use Rattle.std.specs.Prelude.{◌≤◌, ◌+◌};
    ghost use Rattle.indexmap.specs.IndexMap.{index_map_len, spare};
    ghost use Rattle.sz_total.specs.Parts.{PartState};
    ghost use Rattle.sz_total.specs.Code.{part_code};

    ghost Value = { PartState };

    ghost coded = { part_code };

    ghost view = { λ p. record { entries = p.lists.entries; room = p.room; arriving = p.arriving.entries } };

    ghost invariant = { λ p. p.room ≤ index_map_len p.lists + spare p.lists };
}

impl<'a> Part<'a> {
    // A part with nothing in it. It takes no memory.
    pub(crate) fn new(alloc: Global) -> Part<'a>
        ensures value { result ≡ empty_part }
    {
        Part {
            room: 0,
            lists: no_lists(alloc),
            arriving: no_lists(alloc),
        }
    }

    // The same, with room for so many.
    pub(crate) fn with_room(alloc: Global, room: usize) -> Result<Part<'a>, NoMemory>
        ensures value { IfOk result (λ part. part ≡ record { entries = []; room = room; arriving = [] }) }
    {
        let mut lists = no_lists(alloc);
        lists.reserve(room)?;
        Ok(Part {
            room,
            lists,
            arriving: no_lists(alloc),
        })
    }

    // The aggregators under their index lists.
    pub(crate) fn lists(&self) -> &IndexLists<'a>
        ensures value { result.now.entries ≡ self.now.entries }
    {
        &self.lists
    }

    // Adds the emit to the aggregator under its index list.
    pub(crate) fn take(
        &mut self,
        alloc: Global,
        table: &'a TableDecl,
        key: &mut FlatList,
        emit: &Emit,
    ) -> Result<(), NoMemory>
        requires weights { HasItsWeights (seen_table table.now) }
        requires fits { Fits (seen_table table.now) (brought_by emit.now) }
        requires short { HasShortParts emit.now }
        requires of_table { AreOfTable (seen_table table.now) (2 ^ 63 - 1) self.old.entries }
        ensures ok { OnOk result (TakesEmit (seen_table table.now) emit.now self.old.entries self.new.entries) }
        ensures err { OnErr result (self.new ≡ self.old) }
        ensures arriving { self.new.arriving ≡ self.old.arriving }
    {
        take_emit(alloc, table, &mut self.lists, key, emit)
    }

    // The same, where the key is its index list.
    pub(crate) fn take_spelled(
        &mut self,
        alloc: Global,
        table: &'a TableDecl,
        key: &FlatList,
        emit: &Emit,
    ) -> Result<(), NoMemory>
        requires weights { HasItsWeights (seen_table table.now) }
        requires fits { Fits (seen_table table.now) (brought_by emit.now) }
        requires short { HasShortParts emit.now }
        requires key { key.now ≡ emit.now.indexes }
        requires of_table { AreOfTable (seen_table table.now) (2 ^ 63 - 1) self.old.entries }
        ensures ok { OnOk result (TakesEmit (seen_table table.now) emit.now self.old.entries self.new.entries) }
        ensures err { OnErr result (self.new ≡ self.old) }
        ensures arriving { self.new.arriving ≡ self.old.arriving }
    {
        take_hashed(alloc, table, &mut self.lists, key, emit)
    }

    // Makes room for a merge of the other part.
    pub(crate) fn reserve(&mut self, other: &Part<'a>) -> Result<(), NoMemory>
        requires alike { AreAlike self.old.entries other.now.entries }
        ensures ok { OnOk result (HasPartRoom self.new other.now) }
        ensures looks { LooksTheSame self.old.entries self.new.entries }
        ensures arriving { self.new.arriving ≡ self.old.arriving }
    {
        make_room(&mut self.lists, &other.lists)?;
        self.room = self.lists.capacity();
        Ok(())
    }

    // Lets these aggregators wait.
    pub(crate) fn receive(&mut self, lists: IndexLists<'a>)
        ensures value { self.new ≡ record { entries = self.old.entries; room = self.old.room; arriving = lists.entry.entries } }
    {
        let _ = mem::replace(&mut self.arriving, lists);
    }

    // How many wait.
    pub(crate) fn waiting(&self) -> usize {
        self.arriving.len()
    }

    // Joins what waits. There is room for it.
    pub(crate) fn settle(&mut self, alloc: Global)
        requires may { MayJoin self.old }
        ensures settles { Settles self.old self.new }
    {
        let arriving = mem::replace(&mut self.arriving, no_lists(alloc));
        take_all(&mut self.lists, arriving);
    }

    // Puts an aggregator under an index list that isn't there. There is room for it.
    pub(crate) fn put(&mut self, key: FlatList, aggregate: Aggregate<'a>)
        requires absent { lookup (same_indexes key) self.old.entries ≡ None }
        requires room { length self.old.entries < self.old.room }
        ensures value { self.new ≡ record { entries = self.old.entries ++ (key, aggregate.entry) ∷ []; room = self.old.room; arriving = self.old.arriving } }
    {
        let _ = self.lists.insert(key, aggregate);
    }

    // Its aggregators under their index lists.
    pub(crate) fn into_lists(self) -> IndexLists<'a>
        ensures value { result.entries ≡ self.entry.entries }
    {
        let Part {
            room: _,
            lists,
            arriving: _,
        } = self;
        lists
    }
}
