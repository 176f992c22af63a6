//! The aggregator of sets and collections, and its calls.
ghost use Rattle.std.specs.Prelude.{◌≡◌, ◌⊎◌, ◌+◌, ◌≤◌, ◌^◌, IsOk, IfErr, OnOk, OnErr};
ghost use Rattle.sz_types.specs.SeenTables.{seen_table};
ghost use Rattle.sz_types.specs.declared.table.TableKind.TheVariants as kinds;
ghost use Rattle.sz_tabs.specs.Aggregating.{IsNew, Joins};
ghost use Rattle.sz_members.specs.Data.{rows_of_members, HasRoomFor, ChangesRoomAlone};

use crate::counting::{Tally, hold, new_tally, put_all};
use crate::value_rows::rows_of;
use std::alloc::Global;
use std::marker::Model;
use sz_tabs::{Aggregator, NoMemory, Rows};
use sz_types::TableDecl;
use sz_value::Value;

/// The distinct values of the emits to a table under one index list, each with how often it came. Of a set it keeps one more
/// than the table's limit at most. It borrows the declaration, so many aggregators of one table share it.
///
/// Contracts see the declaration, the number of emits, the values with their repeats in any order, and for how many there is
/// room.
#[derive(Drop)]
pub struct Members<'a> {
    alloc: Global,
    table: &'a TableDecl,
    count: u64,
    room: usize,
    tally: Tally,
}

impl<'a> Model for Members<'a> {
    ghost use Rattle.std.specs.Prelude.{map};
    ghost use Rattle.indexmap.specs.IndexMap.{index_map_len, spare};
    ghost use Rattle.sz_members.specs.Data.{Counted};
    ghost use Rattle.sz_members.specs.Code.{counted_code};

    ghost Value = { Counted };

    ghost coded = { counted_code };

    ghost use Rattle.std.specs.Prelude.{◌+◌};
    ghost use Rattle.sz_types.specs.SeenTables.{seen_table};
    ghost use Rattle.sz_members.specs.Repeats.{seen_repeated};
    ghost use Rattle.sz_members.specs.Kept.{IsKept};

    ghost view = { λ m. record { table = seen_table m.table.now; count = m.count; kept = map seen_repeated m.tally.entries; room = m.room } };

    ghost invariant = { λ m. IsKept (seen_table m.table.now) m.tally.entries m.count m.room (index_map_len m.tally + spare m.tally) };
}

impl<'a> Members<'a> {
    /// An aggregator of a table before any emit. It takes no memory.
    pub fn new(alloc: Global, table: &'a TableDecl) -> Members<'a>
        requires kind { ((seen_table table.now).kind ≡ kinds.Set) ⊎ ((seen_table table.now).kind ≡ kinds.Collection) }
        ensures empty { IsNew ⟦<Members<'a> as Aggregator>⟧.declaration ⟦<Members<'a> as Aggregator>⟧.count
            ⟦<Members<'a> as Aggregator>⟧.shown (seen_table table.now) result }
    {
        Members {
            alloc,
            table,
            count: 0,
            room: 0,
            tally: new_tally(alloc),
        }
    }

    /// Makes room for a merge of the other side.
    pub fn reserve(&mut self, other: &Members<'a>) -> Result<(), NoMemory>
        ensures ok { OnOk result (HasRoomFor self.new other.now) }
        ensures kept { ChangesRoomAlone self.old self.new }
        ensures err { OnErr result (self.new ≡ self.old) }
    {
        self.tally.reserve(other.tally.len())?;
        self.room = self.tally.capacity();
        Ok(())
    }
}

impl<'a> Aggregator for Members<'a> {
    ghost declaration = { λ m. m.table };

    ghost count = { λ m. m.count };

    ghost shown = { λ m. rows_of_members m };

    fn add(&mut self, value: &Value, _weight: Option<i64>) -> Result<(), NoMemory> {
        hold(self.alloc, &mut self.tally, self.table, value)?;
        self.count += 1;
        Ok(())
    }

    // As the trait asks; and where there is room for the other side, it is merged.
    fn merge(&mut self, other: Self) -> Result<(), Self>
        requires same { other.table ≡ self.old.table }
        requires room { self.old.count + other.count ≤ 2 ^ 63 }
        ensures ok { OnOk result (Joins (λ m. m.table) (λ m. m.count) rows_of_members self.old other.entry self.new) }
        ensures err { IfErr result (λ back. (back ≡ other.entry) × (self.new ≡ self.old)) }
        ensures reserved { HasRoomFor self.old other.entry → IsOk result }
    {
        if self.tally.reserve(other.tally.len()).is_err() {
            return Err(other);
        }
        self.count += other.count;
        put_all(&mut self.tally, self.table, other.tally);
        Ok(())
    }

    fn rows(&self) -> Result<Rows, NoMemory> {
        rows_of(self.alloc, self.table, &self.tally)
    }
}
