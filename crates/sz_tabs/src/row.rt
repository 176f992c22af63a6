//! Rows of tables, and lists of them.

use crate::sums::Sums;
use std::marker::Model;
use sz_list::Items;
use sz_value::Value;

/// What a row shows.
#[derive(Debug)]
pub enum RowValue {
    One(Value),
    /// The sums of a table of sums, by component.
    Sums(Sums),
    /// A set has more values than it can hold.
    Overflow,
}

impl Drop for RowValue {
    fn drop(self) {
        match self {
            RowValue::One(_) | RowValue::Sums(_) | RowValue::Overflow => {}
        }
    }
}

/// One row. Contracts see it as plain data.
#[derive(Debug)]
pub struct Row {
    pub value: RowValue,
    /// The weight, where the table has weights.
    pub weight: Option<i64>,
}

impl Drop for Row {
    fn drop(self) {
        let Row {
            value: _,
            weight: _,
        } = self;
    }
}

impl Model for Row {
    ghost use Rattle.sz_tabs.specs.Data.{RowDatum};
    ghost use Rattle.sz_tabs.specs.Code.{row_code};

    ghost Value = { RowDatum };

    ghost coded = { row_code };

    ghost use Rattle.sz_tabs.specs.Seen.{seen_shown};

    ghost view = { λ row. record { shown = seen_shown row.value; weight = row.weight } };
}

/// The rows of one table under one index list, in the order in which they are printed. Places are counted from 0.
pub type Rows = Items<Row>;
