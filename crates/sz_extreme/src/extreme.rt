//! The aggregator of extremes, and its calls.
ghost use Rattle.std.specs.Prelude.{◌≡◌, ◌⊎◌, ◌+◌, ◌≤◌, ◌^◌, true, is_some, IsOk, IfErr, OnOk, OnErr};
ghost use Rattle.sz_types.specs.SeenTables.{seen_table};
ghost use Rattle.sz_types.specs.declared.table.TableKind.TheVariants as kinds;
ghost use Rattle.sz_tabs.specs.Aggregating.{IsNew, Joins};
ghost use Rattle.sz_extreme.specs.Data.{rows_of_extremes, HasRoomFor, ChangesRoomAlone};

use crate::heap::{Heap, hold, put_all};
use crate::rank::rank_of;
use crate::ranked_rows::rows_of;
use std::alloc::Global;
use std::collections::BinaryHeap;
use std::marker::Model;
use sz_tabs::{Aggregator, NoMemory, Rows};
use sz_types::TableDecl;
use sz_value::Value;

/// The emits to a table under one index list that have the greatest weights, or the least, as many as the table's limit. Of
/// equal weights the lesser value comes first, and equal emits count each. It borrows the declaration, so many aggregators of
/// one table share it.
///
/// Contracts see the declaration, the number of emits, those that are kept in any order, and for how many there is room.
#[derive(Drop)]
pub struct Extreme<'a> {
    alloc: Global,
    table: &'a TableDecl,
    count: u64,
    room: usize,
    heap: Heap,
}

impl<'a> Model for Extreme<'a> {
    ghost use Rattle.std.specs.Prelude.{map};
    ghost use Rattle.std.specs.BinaryHeap.{heap_items, heap_capacity};
    ghost use Rattle.sz_extreme.specs.Data.{Extremes};
    ghost use Rattle.sz_extreme.specs.Code.{extremes_code};

    ghost Value = { Extremes };

    ghost coded = { extremes_code };

    ghost use Rattle.sz_types.specs.SeenTables.{seen_table};
    ghost use Rattle.sz_extreme.specs.Ranks.{emit_of, seen_rank};
    ghost use Rattle.sz_extreme.specs.Kept.{IsKept};

    ghost view = { λ e.
        record { table = seen_table e.table.now; count = e.count; kept = map (emit_of (seen_table e.table.now).kind) (map seen_rank (heap_items e.heap)); room = e.room } };

    ghost invariant = { λ e. IsKept (seen_table e.table.now) (heap_items e.heap) e.room (heap_capacity e.heap) };
}

impl<'a> Extreme<'a> {
    /// An aggregator of a table before any emit. It takes no memory.
    pub fn new(alloc: Global, table: &'a TableDecl) -> Extreme<'a>
        requires kind { ((seen_table table.now).kind ≡ kinds.Maximum) ⊎ ((seen_table table.now).kind ≡ kinds.Minimum) }
        requires weights { is_some (seen_table table.now).weight ≡ true }
        ensures empty { IsNew ⟦<Extreme<'a> as Aggregator>⟧.declaration ⟦<Extreme<'a> as Aggregator>⟧.count
            ⟦<Extreme<'a> as Aggregator>⟧.shown (seen_table table.now) result }
    {
        Extreme {
            alloc,
            table,
            count: 0,
            room: 0,
            heap: BinaryHeap::new(alloc),
        }
    }

    /// Makes room for a merge of the other side.
    pub fn reserve(&mut self, other: &Extreme<'a>) -> Result<(), NoMemory>
        ensures ok { OnOk result (HasRoomFor self.new other.now) }
        ensures kept { ChangesRoomAlone self.old self.new }
        ensures err { OnErr result (self.new ≡ self.old) }
    {
        self.heap.reserve(other.heap.len())?;
        self.room = self.heap.capacity();
        Ok(())
    }
}

impl<'a> Aggregator for Extreme<'a> {
    ghost declaration = { λ e. e.table };

    ghost count = { λ e. e.count };

    ghost shown = { λ e. rows_of_extremes e };

    fn add(&mut self, value: &Value, weight: Option<i64>) -> Result<(), NoMemory> {
        let rank = rank_of(self.table.kind, weight);
        hold(
            self.alloc,
            &mut self.heap,
            self.table.limit as usize,
            rank,
            value,
        )?;
        self.count += 1;
        Ok(())
    }

    // As the trait asks; and where there is room for the other side, it is merged.
    fn merge(&mut self, other: Self) -> Result<(), Self>
        requires same { other.table ≡ self.old.table }
        requires room { self.old.count + other.count ≤ 2 ^ 63 }
        ensures ok { OnOk result (Joins (λ e. e.table) (λ e. e.count) rows_of_extremes self.old other.entry self.new) }
        ensures err { IfErr result (λ back. (back ≡ other.entry) × (self.new ≡ self.old)) }
        ensures reserved { HasRoomFor self.old other.entry → IsOk result }
    {
        if self.heap.reserve(other.heap.len()).is_err() {
            return Err(other);
        }
        let mut other = other;
        put_all(&mut self.heap, self.table.limit as usize, &mut other.heap);
        self.count += other.count;
        Ok(())
    }

    fn rows(&self) -> Result<Rows, NoMemory> {
        rows_of(self.alloc, self.table.kind, self.heap.as_slice())
    }
}
