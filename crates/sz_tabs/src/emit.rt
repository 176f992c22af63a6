//! Emits, and lists of them.

use std::marker::Model;
use sz_list::Items;
use sz_value::{List, Value};

/// One emit. Contracts see it as plain data.
#[derive(Debug)]
pub struct Emit {
    /// The number of its table, counted from 0.
    pub table: u32,
    /// Its index list: a value for each index of the table, in order.
    pub indexes: List,
    pub value: Value,
    /// Its weight, where the table has weights: a number, or a time in microseconds.
    pub weight: Option<i64>,
}

impl Drop for Emit {
    fn drop(self) {
        let Emit {
            table: _,
            indexes: _,
            value: _,
            weight: _,
        } = self;
    }
}

impl Model for Emit {
    ghost use Rattle.sz_value.specs.Seen.{seen};
    ghost use Rattle.sz_tabs.specs.Data.{EmitDatum};
    ghost use Rattle.sz_tabs.specs.Code.{emit_code};

    ghost Value = { EmitDatum };

    ghost coded = { emit_code };

    ghost view = { λ e. record { table = e.table; indexes = e.indexes; value = seen e.value; weight = e.weight } };
}

/// Emits in the order in which they were made. Places are counted from 0.
pub type Emits = Items<Emit>;
