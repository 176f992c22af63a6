//! One table, and its calls.
ghost use Rattle.std.specs.Prelude.{◌≡◌, ◌<◌, ◌≤◌, ◌+◌, ◌*◌, ◌^◌, ◌⊎◌, [], ◌∷◌, length, IfOk, OnOk, OnErr};
ghost use Rattle.sz_types.specs.SeenTables.{seen_table};
ghost use Rattle.sz_tabs.specs.Fitting.{Fits};
ghost use Rattle.sz_tabs.specs.Rows.{brought_by};
ghost use Rattle.sz_total.specs.Bounded.{SumsAreWithin};
ghost use Rattle.sz_total.specs.OneTable.{new_table, table_shown, GainsEmit, ChangesRoomAlone, HasRoomToMerge, JoinsTable};
ghost use Rattle.sz_total.specs.Short.{HasShortParts};
ghost use Rattle.sz_total.specs.Weights.{HasItsWeights};

use crate::dealing::deal_out;
use crate::hands::{Dealing, Hands};
use crate::in_order::{RowsInOrder, all_rows};
use crate::indexed::TableRows;
use crate::part::Part;
use crate::parts::{add_to_part, receive_all, reserve_parts};
use std::alloc::Global;
use std::marker::Model;
use std::thread::Threads;
use sz_flat::FlatList;
use sz_tabs::{Emit, NoMemory};
use sz_types::TableDecl;

// A table of more index lists is large.
const LARGE: usize = 4096;

/// What was emitted to one table, index list by index list, and the room in which the index list of an emit is spelled. The index lists
/// lie in one part, or in 16 once a large table was merged with another. Contracts see its declaration, the number of emits, and its
/// parts.
#[derive(Drop)]
pub(crate) struct OneTable<'a> {
    alloc: Global,
    table: &'a TableDecl,
    count: u64,
    parts: Vec<Part<'a>>,
    key: FlatList,
}

impl<'a> Model for OneTable<'a> {
    ghost use Rattle.sz_total.specs.OneTable.{TableState};
    ghost use Rattle.sz_total.specs.Code.{table_code};

    ghost Value = { TableState };

    ghost coded = { table_code };

    ghost use Rattle.sz_types.specs.SeenTables.{seen_table};
    ghost use Rattle.sz_total.specs.OneTable.{IsKept};

    ghost view = { λ t. record { table = seen_table t.table.now; count = t.count; parts = t.parts.items } };

    ghost invariant = { λ t. IsKept (seen_table t.table.now) t.count t.parts.items };
}

impl<'a> OneTable<'a> {
    /// A table before any emit.
    pub(crate) fn new(alloc: Global, table: &'a TableDecl) -> Result<OneTable<'a>, NoMemory>
        requires weights { HasItsWeights (seen_table table.now) }
        ensures value { IfOk result (λ state. state ≡ new_table (seen_table table.now)) }
    {
        let mut parts = Vec::new(alloc);
        parts.push(Part::new(alloc))?;
        Ok(OneTable {
            alloc,
            table,
            count: 0,
            parts,
            key: FlatList::new(alloc),
        })
    }

    /// Adds an emit to this table.
    pub(crate) fn add(&mut self, emit: &Emit) -> Result<(), NoMemory>
        requires fits { Fits self.old.table (brought_by emit.now) }
        requires short { HasShortParts emit.now }
        requires room { self.old.count < 2 ^ 63 }
        ensures ok { OnOk result (GainsEmit self.old self.new emit.now) }
        ensures err { OnErr result (self.new ≡ self.old) }
    {
        add_to_part(self.alloc, self.table, &mut self.parts, &mut self.key, emit)?;
        self.count += 1;
        Ok(())
    }

    /// Makes room for a merge of the other table, which has the same declaration. Where both are to be dealt out, or either has parts, both
    /// are dealt out to parts.
    pub(crate) fn reserve(
        &mut self,
        other: &mut OneTable<'a>,
        dealing: Dealing,
    ) -> Result<(), NoMemory>
        requires same { other.old.table ≡ self.old.table }
        ensures ok { OnOk result (HasRoomToMerge self.new other.new) }
        ensures kept { ChangesRoomAlone self.old self.new }
        ensures other { ChangesRoomAlone other.old other.new }
    {
        self.deal_beside(other, dealing)?;
        self.reserve_beside(other)
    }

    // Deals the index lists of both tables out to parts, where they are to be, or either has parts.
    fn deal_beside(&mut self, other: &mut OneTable<'a>, dealing: Dealing) -> Result<(), NoMemory>
        ensures ok { OnOk result (length other.new.parts ≡ length self.new.parts) }
        ensures kept { ChangesRoomAlone self.old self.new }
        ensures other { ChangesRoomAlone other.old other.new }
    {
        if self.parts.len() == other.parts.len() && !self.are_to_be_dealt(other, dealing) {
            return Ok(());
        }
        self.deal()?;
        other.deal()
    }

    // Whether this table and the other are large enough to be dealt out.
    fn are_to_be_dealt(&self, other: &OneTable<'a>, dealing: Dealing) -> bool {
        match dealing {
            Dealing::Never => false,
            Dealing::BothLarge => self.is_large() && other.is_large(),
            Dealing::OneLarge => self.is_large() || other.is_large(),
        }
    }

    // Whether many index lists lie in its first part.
    fn is_large(&self) -> bool {
        self.parts[0].lists().len() > LARGE
    }

    // Deals the index lists out to 16 parts.
    fn deal(&mut self) -> Result<(), NoMemory>
        ensures ok { OnOk result (length self.new.parts ≡ 16) }
        ensures kept { ChangesRoomAlone self.old self.new }
    {
        if self.parts.len() == 1 {
            deal_out(self.alloc, &mut self.parts)?;
        }
        Ok(())
    }

    // Makes room in each part for that of the other table, which has as many.
    fn reserve_beside(&mut self, other: &OneTable<'a>) -> Result<(), NoMemory>
        requires same { other.now.table ≡ self.old.table }
        requires as_many { length other.now.parts ≡ length self.old.parts }
        ensures ok { OnOk result (HasRoomToMerge self.new other.now) }
        ensures kept { ChangesRoomAlone self.old self.new }
    {
        reserve_parts(&mut self.parts, &other.parts)
    }

    /// Merges the other table, for which there is room.
    pub(crate) fn merge<H: Hands>(&mut self, other: OneTable<'a>, hands: &H)
        requires hands { H.may_share }
        requires same { other.table ≡ self.old.table }
        requires few { self.old.count + other.count ≤ 2 ^ 63 }
        requires room { HasRoomToMerge self.old other }
        ensures value { JoinsTable self.old other.entry self.new }
    {
        self.count += other.count;
        receive_all(&mut self.parts, other.parts);
        hands.settle_all(self.alloc, &mut self.parts);
    }

    /// The rows, with the index lists in value order.
    pub(crate) fn rows(&self) -> Result<TableRows, NoMemory>
        ensures value { IfOk result (λ rows. rows ≡ table_shown self.now) }
        ensures within { OnOk result (SumsAreWithin (2 ^ 63 * self.now.count) (table_shown self.now)) }
    {
        all_rows(self.alloc, &self.parts)
    }

    /// The same rows, of which those under one index list at a time can be asked for.
    pub(crate) fn in_order(&self) -> Result<RowsInOrder<'_, 'a>, NoMemory>
        ensures value { IfOk result (λ rows. rows ≡ table_shown self.now) }
    {
        RowsInOrder::new(self.alloc, &self.parts)
    }

    /// The same, put in order by at most so many threads.
    pub(crate) fn in_order_by<R: Threads + Sync>(
        &self,
        rt: &R,
        threads: usize,
    ) -> Result<RowsInOrder<'_, 'a>, NoMemory>
        requires threads { 1 ≤ threads }
        ensures value { IfOk result (λ rows. rows ≡ table_shown self.now) }
    {
        RowsInOrder::new_by(rt, threads, self.alloc, &self.parts)
    }
}
