//! The tables of a program, and their calls.
ghost use Rattle.std.specs.Prelude.{◌≡◌, ◌<◌, ◌≤◌, ◌+◌, ◌*◌, ◌^◌, length, map, IfOk, IfErr, OnOk, OnErr};
ghost use Rattle.sz_tabs.specs.Fitting.{IsEmitTo};
ghost use Rattle.sz_total.specs.Bounded.{SumsAreWithin};
ghost use Rattle.sz_total.specs.OneTable.{new_table, HasRoomFor, GainsAt};
ghost use Rattle.sz_total.specs.Merging.{AreMatched, IsMatchedAt, HasRoomAt, ChangesRoomAt, ChangeRoomAlone, HaveRoomToMerge};
ghost use Rattle.sz_total.specs.Merging.{AreFew, MayMergeAt, MergesAt, JoinTables};
ghost use Rattle.sz_total.specs.Origin.{ComesFromEmits};
ghost use Rattle.sz_total.specs.Short.{HasShortParts};
ghost use Rattle.sz_total.specs.States.{declarations, emit_count, shown};
ghost use Rattle.sz_total.specs.Totals.{IsNew, Gains, Joins};
ghost use Rattle.sz_total.specs.Weights.{HaveTheirWeights};

use crate::hands::{Alone, Dealing, Hands, InThreads};
use crate::in_order::RowsInOrder;
use crate::indexed::TableRows;
use crate::one_table::OneTable;
use std::alloc::Global;
use std::marker::Model;
use std::mem;
use std::thread::Threads;
use sz_tabs::{Emit, NoMemory};
use sz_types::TableDecls;

/// What was emitted to the tables of a program, index list by index list. It borrows the declarations, and copies none.
///
/// Contracts see the declarations, the number of emits, and the rows of each table.
#[derive(Drop)]
pub struct Total<'a> {
    tables: &'a TableDecls,
    count: u64,
    states: Vec<OneTable<'a>>,
    early: bool,
}

impl<'a> Model for Total<'a> {
    ghost use Rattle.sz_total.specs.Short.{HasShortParts};
    ghost use Rattle.sz_total.specs.States.{TotalState};
    ghost use Rattle.sz_total.specs.Code.{total_code};

    ghost Value = { TotalState };

    ghost coded = { total_code };

    ghost use Rattle.std.specs.Prelude.{map};
    ghost use Rattle.sz_total.specs.OneTable.{table_shown, IsTotal};

    ghost view = { λ t. record { tables = t.tables.now; count = t.count; rows = map table_shown t.states.items } };

    ghost invariant = { λ t. IsTotal t.tables.now t.count t.states.items };
}

impl<'a> Total<'a> {
    /// The declared tables before any emit. Places of tables are counted from 0.
    pub fn new(alloc: Global, tables: &'a TableDecls) -> Result<Total<'a>, NoMemory>
        requires weights { HaveTheirWeights tables.now }
        ensures empty { IfOk result (IsNew declarations emit_count shown tables.now) }
    {
        let states = all_new(alloc, tables)?;
        Ok(Total {
            tables,
            count: 0,
            states,
            early: false,
        })
    }

    /// Adds an emit to its table.
    pub fn add(&mut self, emit: &Emit) -> Result<(), NoMemory>
        requires fits { IsEmitTo self.old.tables emit.now }
        requires short { HasShortParts emit.now }
        requires room { self.old.count < 2 ^ 63 }
        ensures ok { OnOk result (Gains declarations emit_count shown self.old self.new emit.now) }
        ensures err { OnErr result (self.new ≡ self.old) }
    {
        add_at(&mut self.states, emit)?;
        self.count += 1;
        Ok(())
    }

    /// Merges the other side: afterwards the tables stand for what was emitted to either, in any order. It gives the other side back
    /// where there is no memory, and both are then as before. The declarations of both are the same.
    pub fn merge(&mut self, other: Total<'a>) -> Result<(), Total<'a>>
        requires same { other.tables ≡ self.old.tables }
        requires room { self.old.count + other.count ≤ 2 ^ 63 }
        ensures ok { OnOk result (Joins declarations emit_count shown self.old other.entry self.new) }
        ensures err { IfErr result (λ back. (back ≡ other.entry) × (self.new ≡ self.old)) }
    {
        self.merge_with(other, &Alone { early: false })
    }

    /// Merges the other side as `merge` does, with the same promise. The side with more emits takes in the other's entries, which are
    /// moved over one by one; since tables forget the order of emits, nobody can see which side it was.
    pub fn absorb(&mut self, mut other: Total<'a>) -> Result<(), Total<'a>>
        requires same { other.tables ≡ self.old.tables }
        requires room { self.old.count + other.count ≤ 2 ^ 63 }
        ensures ok { OnOk result (Joins declarations emit_count shown self.old other.entry self.new) }
        ensures err { IfErr result (λ back. (back ≡ other.entry) × (self.new ≡ self.old)) }
    {
        let early = self.early;
        // the sides may change places
        other.early = early;
        self.absorb_with(other, &Alone { early })
    }

    /// Says whether `absorb` deals large tables out to parts, one other side after the other, so that `absorb_by` finds them dealt out.
    /// New tables don't. What contracts see stays.
    pub fn deal_early(&mut self, early: bool)
        ensures same { self.new ≡ self.old }
    {
        self.early = early;
    }

    /// Absorbs the other side as `absorb` does, with the same promise, in at most so many threads. They are started for the tables that
    /// are large on both sides.
    pub fn absorb_by<R: Threads + Sync>(
        &mut self,
        rt: &R,
        threads: usize,
        other: Total<'a>,
    ) -> Result<(), Total<'a>>
        requires threads { 1 ≤ threads }
        requires same { other.tables ≡ self.old.tables }
        requires room { self.old.count + other.count ≤ 2 ^ 63 }
        ensures ok { OnOk result (Joins declarations emit_count shown self.old other.entry self.new) }
        ensures err { IfErr result (λ back. (back ≡ other.entry) × (self.new ≡ self.old)) }
    {
        let hands = InThreads { rt, threads };
        self.absorb_with(other, &hands)
    }

    // Absorbs the other side by these hands.
    fn absorb_with<H: Hands>(&mut self, mut other: Total<'a>, hands: &H) -> Result<(), Total<'a>>
        requires hands { H.may_share }
        requires same { other.tables ≡ self.old.tables }
        requires room { self.old.count + other.count ≤ 2 ^ 63 }
        ensures ok { OnOk result (Joins declarations emit_count shown self.old other.entry self.new) }
        ensures err { IfErr result (λ back. (back ≡ other.entry) × (self.new ≡ self.old)) }
    {
        if other.emits() <= self.emits() {
            return self.merge_with(other, hands);
        }
        mem::swap(self, &mut other);
        match self.merge_with(other, hands) {
            Ok(()) => Ok(()),
            Err(mut back) => {
                mem::swap(self, &mut back);
                Err(back)
            }
        }
    }

    // Merges the other side by these hands. Where it is refused, either side may have been dealt out to parts, which nobody can see.
    fn merge_with<H: Hands>(&mut self, mut other: Total<'a>, hands: &H) -> Result<(), Total<'a>>
        requires hands { H.may_share }
        requires same { other.tables ≡ self.old.tables }
        requires room { self.old.count + other.count ≤ 2 ^ 63 }
        ensures ok { OnOk result (Joins declarations emit_count shown self.old other.entry self.new) }
        ensures err { IfErr result (λ back. (back ≡ other.entry) × (self.new ≡ self.old)) }
    {
        if reserve_all(&mut self.states, &mut other.states, hands.dealing()).is_err() {
            return Err(other);
        }
        self.count += other.count;
        merge_all(&mut self.states, other.states, hands);
        Ok(())
    }

    /// The rows of the table at a place, with the index lists in value order.
    pub fn rows(&self, table: usize) -> Result<TableRows, NoMemory>
        requires declared { table < length self.now.tables }
        ensures value { IfOk result (λ rows. rows ≡ shown self.now table) }
        ensures within { OnOk result (SumsAreWithin (2 ^ 63 * self.now.count) (shown self.now table)) }
    {
        let states = &self.states[table];
        states.rows()
    }

    /// The same rows, of which those under one index list at a time can be asked for. It takes memory for the order of the index lists
    /// alone.
    pub fn in_order(&self, table: usize) -> Result<RowsInOrder<'_, 'a>, NoMemory>
        requires declared { table < length self.now.tables }
        ensures value { IfOk result (λ rows. rows ≡ shown self.now table) }
    {
        let states = &self.states[table];
        states.in_order()
    }

    /// The same, put in order by at most so many threads, which are started where there are thousands of index lists.
    pub fn in_order_by<R: Threads + Sync>(
        &self,
        rt: &R,
        threads: usize,
        table: usize,
    ) -> Result<RowsInOrder<'_, 'a>, NoMemory>
        requires threads { 1 ≤ threads }
        requires declared { table < length self.now.tables }
        ensures value { IfOk result (λ rows. rows ≡ shown self.now table) }
    {
        let states = &self.states[table];
        states.in_order_by(rt, threads)
    }

    /// How many emits were added. What the tables show comes from so many emits that fit them.
    pub fn emits(&self) -> u64
        ensures value { result ≡ self.now.count }
        ensures come { ComesFromEmits self.now }
    {
        self.count
    }
}

// The declared tables before any emit.
fn all_new<'a>(alloc: Global, tables: &'a TableDecls) -> Result<Vec<OneTable<'a>>, NoMemory>
    requires weights { HaveTheirWeights tables.now }
    ensures value { IfOk result (λ states. states.items ≡ map new_table tables.now) }
{
    let mut states = Vec::with_capacity(alloc, tables.len())?;
    for table in tables.as_slice() {
        states.push(OneTable::new(alloc, table)?)?;
    }
    Ok(states)
}

// Adds an emit to its table.
fn add_at<'a>(states: &mut Vec<OneTable<'a>>, emit: &Emit) -> Result<(), NoMemory>
    requires fits { HasRoomFor emit.now states.old.items }
    requires short { HasShortParts emit.now }
    ensures ok { OnOk result (GainsAt emit.now states.old.items states.new.items) }
    ensures err { OnErr result (states.new.items ≡ states.old.items) }
{
    let table = &mut states[emit.table as usize];
    table.add(emit)
}

// Makes room in each table for that of the other side.
fn reserve_all<'a>(
    states: &mut Vec<OneTable<'a>>,
    others: &mut Vec<OneTable<'a>>,
    dealing: Dealing,
) -> Result<(), NoMemory>
    requires matched { AreMatched states.old.items others.old.items }
    ensures ok { OnOk result (HaveRoomToMerge states.new.items others.new.items) }
    ensures kept { ChangeRoomAlone states.old.items states.new.items }
    ensures others { ChangeRoomAlone others.old.items others.new.items }
{
    for at in 0..others.len() {
        reserve_at(states, others, at, dealing)?;
    }
    Ok(())
}

// Makes room in the table at a place for that of the other side.
fn reserve_at<'a>(
    states: &mut Vec<OneTable<'a>>,
    others: &mut Vec<OneTable<'a>>,
    at: usize,
    dealing: Dealing,
) -> Result<(), NoMemory>
    requires matched { IsMatchedAt at states.old.items others.old.items }
    ensures ok { OnOk result (HasRoomAt at states.new.items others.new.items) }
    ensures kept { ChangesRoomAt at states.old.items states.new.items }
    ensures others { ChangesRoomAt at others.old.items others.new.items }
{
    let table = &mut states[at];
    let other = &mut others[at];
    table.reserve(other, dealing)
}

// Merges each table of the other side, for which there is room.
fn merge_all<'a, H: Hands>(states: &mut Vec<OneTable<'a>>, others: Vec<OneTable<'a>>, hands: &H)
    requires hands { H.may_share }
    requires matched { AreMatched states.old.items others.items }
    requires few { AreFew states.old.items others.items }
    requires room { HaveRoomToMerge states.old.items others.items }
    ensures value { JoinTables states.old.items others.entry.items states.new.items }
{
    let mut at = 0;
    for other in others {
        merge_at(states, at, other, hands);
        at += 1;
    }
}

// Merges a table with that at a place, which has room for it.
fn merge_at<'a, H: Hands>(states: &mut Vec<OneTable<'a>>, at: usize, other: OneTable<'a>, hands: &H)
    requires hands { H.may_share }
    requires may { MayMergeAt at other states.old.items }
    ensures value { MergesAt at other.entry states.old.items states.new.items }
{
    let table = &mut states[at];
    table.merge(other, hands);
}
