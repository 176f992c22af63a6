//! The declaration of a table.

use crate::text::Text;
use crate::ty::Ty;
use crate::tys::Tys;

/// What a table keeps of the values that are emitted under the same indexes.
#[derive(Clone, Copy, Debug, PartialEq, Eq)]
pub enum TableKind {
    /// Their exact sum, by component.
    Sum,
    /// Those of the greatest weights.
    Maximum,
    /// Those of the least weights.
    Minimum,
    /// The distinct ones.
    Set,
    /// All of them, with repeats.
    Collection,
}

/// A table of a program.
///
/// Contracts see it by `seen_table` of `specs/SeenTables.antt`.
#[derive(Debug)]
pub struct TableDecl {
    pub name: Text,
    pub kind: TableKind,
    /// How many values a maximum or a minimum keeps, and a set can hold: the number in parentheses after the kind. It is 0 for
    /// a sum and a collection, which have none.
    pub limit: u32,
    /// The types of the indexes, in order.
    pub indexes: Tys,
    pub element: Ty,
    /// The type of the weights, where the table has them.
    pub weight: Option<Ty>,
}

impl Drop for TableDecl {
    fn drop(self) {
        let TableDecl {
            name: _,
            kind: _,
            limit: _,
            indexes: _,
            element: _,
            weight: _,
        } = self;
    }
}
