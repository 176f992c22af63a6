//! The rows of a table, index list by index list.

use std::marker::Model;
use sz_list::Items;
use sz_tabs::Rows;
use sz_value::List;

/// An index list with the rows under it. Contracts see it as plain data.
#[derive(Debug)]
pub struct IndexedRows {
    pub indexes: List,
    pub rows: Rows,
}

impl Drop for IndexedRows {
    fn drop(self) {
        let IndexedRows {
            indexes: _,
            rows: _,
        } = self;
    }
}

impl Model for IndexedRows {
    ghost use Rattle.sz_total.specs.Tables.{Indexed};
    ghost use Rattle.sz_total.specs.Code.{indexed_code};

    ghost Value = { Indexed };

    ghost coded = { indexed_code };

    ghost view = { λ r. record { indexes = r.indexes; rows = r.rows } };
}

/// The rows of a table, with its index lists in value order. Places are counted from 0.
pub type TableRows = Items<IndexedRows>;
