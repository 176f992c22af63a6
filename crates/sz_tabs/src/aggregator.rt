//! Aggregators, which sum up what is emitted to one table under one index list.
ghost use Rattle.std.specs.Prelude.{◌≡◌, ◌<◌, ◌≤◌, ◌+◌, ◌^◌, ℕ, List, IfOk, IfErr, OnOk, OnErr};
ghost use Rattle.sz_types.specs.Tables.{Declaration};
ghost use Rattle.sz_value.specs.Seen.{seen};
ghost use Rattle.sz_tabs.specs.Data.{RowDatum};
ghost use Rattle.sz_tabs.specs.Fitting.{Fits};
ghost use Rattle.sz_tabs.specs.Aggregating.{weighted, Gains, Joins};

use crate::NoMemory;
use crate::row::Rows;
use sz_value::Value;

/// What sums up the emits to one table under one index list. It takes emits one by one, and aggregators of one table are
/// merged; in which order, can't be seen in the rows.
///
/// An aggregator stands for a list of emits, each a value with its weight, if the rows that it shows are those of the list and its
/// number of emits is the list's length. A new one stands for the empty list: each constructor says so by `IsNew` of
/// `specs/Aggregating.antt`. `add` appends to each list that it stands for, and `merge` joins the lists of both sides.
pub trait Aggregator: Sized {
    /// The declaration of its table.
    ghost declaration: { Self → Declaration };

    /// How many emits were added to it, those of merged sides included.
    ghost count: { Self → ℕ };

    /// The rows that it shows.
    ghost shown: { Self → List RowDatum };

    /// Adds an emit: its value, and its weight where the table has weights.
    fn add(&mut self, value: &Value, weight: Option<i64>) -> Result<(), NoMemory>
        requires fits { Fits (declaration self.old) (weighted (seen value.now) weight) }
        requires room { count self.old < 2 ^ 63 }
        ensures ok { OnOk result (Gains declaration count shown self.old self.new (weighted (seen value.now) weight)) }
        ensures err { OnErr result (self.new ≡ self.old) };

    /// Adds all emits of the other side, of the same table. Where there is no memory the other side is handed back.
    fn merge(&mut self, other: Self) -> Result<(), Self>
        requires same { declaration other ≡ declaration self.old }
        requires room { count self.old + count other ≤ 2 ^ 63 }
        ensures ok { OnOk result (Joins declaration count shown self.old other self.new) }
        ensures err { IfErr result (λ back. (back ≡ other) × (self.new ≡ self.old)) };

    /// The rows, in the order in which they are printed.
    fn rows(&self) -> Result<Rows, NoMemory>
        ensures value { IfOk result (λ rows. rows ≡ shown self.now) };
}
