//! A sum, and its calls.
ghost use Rattle.std.specs.Prelude.{◌≡◌, ◌+◌, ◌*◌, ◌≤◌, ◌^◌, IsOk, IfOk, IfErr, OnOk};
ghost use Rattle.sz_types.specs.SeenTables.{seen_table};
ghost use Rattle.sz_types.specs.declared.table.TableKind.TheVariants as kinds;
ghost use Rattle.sz_tabs.specs.Aggregating.{IsNew, Joins};
ghost use Rattle.sz_tabs.specs.Bounds.{AreWithin};
ghost use Rattle.sz_sum.specs.Data.{rows_of_sum};

use crate::adding::{add_sums, add_value, width_of};
use crate::numbers::Numbers;
use std::alloc::Global;
use std::marker::Model;
use sz_tabs::{Aggregator, NoMemory, Row, RowValue, Rows, Sums};
use sz_types::TableDecl;
use sz_value::Value;

/// The exact sum of the values that are emitted to one table under one index list, by component: one number for a table of
/// `int`, and one for each part for a table of tuples. It borrows the declaration, so many sums of one table share it.
///
/// Contracts see the declaration, the number of emits and the sums. A single number is kept in place, so only a new sum of several
/// takes memory, and the rows: no emit does, nor a merge.
#[derive(Debug)]
pub struct Sum<'a> {
    alloc: Global,
    table: &'a TableDecl,
    count: u64,
    sums: Numbers,
}

impl<'a> Drop for Sum<'a> {
    fn drop(self) {
        let Sum {
            alloc: _,
            table: _,
            count: _,
            sums: _,
        } = self;
    }
}

impl<'a> Model for Sum<'a> {
    ghost use Rattle.sz_sum.specs.Data.{Summed};
    ghost use Rattle.sz_sum.specs.Code.{summed_code};

    ghost Value = { Summed };

    ghost coded = { summed_code };

    ghost use Rattle.sz_types.specs.SeenTables.{seen_table};
    ghost use Rattle.sz_sum.specs.Kept.{IsKept};

    ghost view = { λ s. record { table = seen_table s.table.now; count = s.count; numbers = s.sums } };

    ghost invariant = { λ s. IsKept (seen_table s.table.now) s.count s.sums };
}

impl<'a> Sum<'a> {
    /// A sum of a table before any emit.
    pub fn new(alloc: Global, table: &'a TableDecl) -> Result<Sum<'a>, NoMemory>
        requires kind { (seen_table table.now).kind ≡ kinds.Sum }
        ensures empty { IfOk result (IsNew ⟦<Sum<'a> as Aggregator>⟧.declaration ⟦<Sum<'a> as Aggregator>⟧.count
            ⟦<Sum<'a> as Aggregator>⟧.shown (seen_table table.now)) }
    {
        let sums = Numbers::zeros(alloc, width_of(&table.element))?;
        Ok(Sum {
            alloc,
            table,
            count: 0,
            sums,
        })
    }

    /// Makes room for a merge of the other side. There is always room, so it takes no memory.
    pub fn reserve(&mut self, _other: &Sum<'a>) -> Result<(), NoMemory>
        ensures ok { IsOk result }
        ensures kept { self.new ≡ self.old }
    {
        Ok(())
    }
}

impl<'a> Aggregator for Sum<'a> {
    ghost use Rattle.sz_sum.specs.Data.{rows_of_sum};

    ghost declaration = { λ s. s.table };

    ghost count = { λ s. s.count };

    ghost shown = { λ s. rows_of_sum s };

    fn add(&mut self, value: &Value, _weight: Option<i64>) -> Result<(), NoMemory> {
        add_value(&mut self.sums, value);
        self.count += 1;
        Ok(())
    }

    // As the trait asks; and there is always room for the other side.
    fn merge(&mut self, other: Self) -> Result<(), Self>
        requires same { other.table ≡ self.old.table }
        requires room { self.old.count + other.count ≤ 2 ^ 63 }
        ensures ok { OnOk result (Joins (λ s. s.table) (λ s. s.count) rows_of_sum self.old other.entry self.new) }
        ensures err { IfErr result (λ back. (back ≡ other.entry) × (self.new ≡ self.old)) }
        ensures always { IsOk result }
    {
        add_sums(&mut self.sums, other.sums.as_slice());
        self.count += other.count;
        Ok(())
    }

    // As the trait asks; and no sum is further from 0 than so many emits can bring it.
    fn rows(&self) -> Result<Rows, NoMemory>
        ensures value { IfOk result (λ rows. rows ≡ rows_of_sum self.now) }
        ensures within { AreWithin (2 ^ 63 * self.now.count) self.now.numbers }
    {
        if self.count > 0 {
            let mut rows = Rows::with_capacity(self.alloc, 1)?;
            rows.push(Row {
                value: RowValue::Sums(Sums::copied(self.alloc, self.sums.as_slice())?),
                weight: None,
            })?;
            return Ok(rows);
        }
        Ok(Rows::new(self.alloc))
    }
}
