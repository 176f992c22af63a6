//! A plain aggregator, which keeps every emit and makes its rows when it is asked.
ghost use Rattle.std.specs.Prelude.{IfOk};
ghost use Rattle.sz_types.specs.SeenTables.{seen_table};
ghost use Rattle.sz_tabs.specs.Aggregating.{IsNew};

use crate::NoMemory;
use crate::aggregator::Aggregator;
use crate::plain_rows::rows_of;
use crate::row::Rows;
use std::alloc::Global;
use std::marker::Model;
use sz_types::{TableDecl, copy_table};
use sz_value::{Value, copy};

// A value and its weight.
#[derive(Debug)]
pub(crate) struct Kept {
    pub(crate) value: Value,
    pub(crate) weight: Option<i64>,
}

impl Drop for Kept {
    fn drop(self) {
        let Kept {
            value: _,
            weight: _,
        } = self;
    }
}

/// An aggregator of any kind of table, which keeps every emit and makes its rows when it is asked. It is as slow and as
/// large as that sounds: it shows that the trait's contract can be met, and tests hold other aggregators against it.
///
/// Contracts see the declaration and the list of the emits.
#[derive(Debug)]
pub struct PlainAggregator {
    alloc: Global,
    table: TableDecl,
    kept: Vec<Kept>,
}

impl Drop for PlainAggregator {
    fn drop(self) {
        let PlainAggregator {
            alloc: _,
            table: _,
            kept: _,
        } = self;
    }
}

impl Model for PlainAggregator {
    ghost use Rattle.std.specs.Prelude.{map};
    ghost use Rattle.sz_tabs.specs.Listing.{Listing};
    ghost use Rattle.sz_tabs.specs.Code.{listing_code};

    ghost Value = { Listing };

    ghost coded = { listing_code };

    ghost use Rattle.sz_types.specs.SeenTables.{seen_table};
    ghost use Rattle.sz_tabs.specs.SeenKept.{seen_kept};

    ghost view = { λ a. record { table = seen_table a.table; emits = map seen_kept a.kept.items } };
}

impl PlainAggregator {
    /// An aggregator of a table before any emit.
    pub fn new(alloc: Global, table: &TableDecl) -> Result<PlainAggregator, NoMemory>
        ensures empty { IfOk result (IsNew ⟦<PlainAggregator as Aggregator>⟧.declaration ⟦<PlainAggregator as Aggregator>⟧.count
            ⟦<PlainAggregator as Aggregator>⟧.shown (seen_table table.now)) }
    {
        let table = copy_table(alloc, table)?;
        Ok(PlainAggregator {
            alloc,
            table,
            kept: Vec::new(alloc),
        })
    }
}

impl Aggregator for PlainAggregator {
    ghost use Rattle.std.specs.Prelude.{length};
    ghost use Rattle.sz_tabs.specs.Rows.{rows_of};

    ghost declaration = { λ a. a.table };

    ghost count = { λ a. length a.emits };

    ghost shown = { λ a. rows_of a.table a.emits };

    fn add(&mut self, value: &Value, weight: Option<i64>) -> Result<(), NoMemory> {
        let value = copy(self.alloc, value)?;
        self.kept.push(Kept { value, weight })?;
        Ok(())
    }

    fn merge(&mut self, mut other: Self) -> Result<(), Self> {
        match self.kept.append(&mut other.kept) {
            Ok(()) => Ok(()),
            Err(_) => Err(other),
        }
    }

    fn rows(&self) -> Result<Rows, NoMemory> {
        rows_of(self.alloc, &self.table, &self.kept)
    }
}
