//! Values, and the lists and maps inside them.
ghost use Rattle.std.specs.Prelude.{◌≡◌, map};
ghost use Rattle.sz_value.specs.Seen.{seen};

use crate::octets::Octets;
use crate::text::Text;
use std::marker::Model;

/// A value of a program.
///
/// Contracts see it as plain data, by `seen` of `specs/Seen.antt`.
#[cycle(value)]
#[derive(Debug)]
pub enum Value {
    Bool(bool),
    Int(i64),
    /// A number of microseconds.
    Time(i64),
    Str(Text),
    Bytes(Octets),
    Array(List),
    Tuple(List),
    Map(Pairs),
}

impl Drop for Value {
    #[cycle(drop)]
    fn drop(self) {
        match self {
            Value::Bool(_)
            | Value::Int(_)
            | Value::Time(_)
            | Value::Str(_)
            | Value::Bytes(_)
            | Value::Array(_)
            | Value::Tuple(_)
            | Value::Map(_) => {}
        }
    }
}

/// The elements of an array, or the fields of a tuple, in order. Places are counted from 0.
///
/// Contracts see the list of their plain data.
#[cycle(value)]
#[derive(Debug)]
pub struct List {
    pub(crate) values: Vec<Value>,
}

impl Drop for List {
    #[cycle(drop)]
    fn drop(self) {
        let List { values: _ } = self;
    }
}

impl List {
    /// Gives the values back, and takes no memory.
    pub fn into_vec(self) -> Vec<Value>
        ensures value { map seen result.items ≡ self }
    {
        let Self { values } = self;
        values
    }
}

/// A key of a map and its value.
#[cycle(value)]
#[derive(Debug, Drop)]
pub struct Pair {
    pub key: Value,
    pub value: Value,
}

/// The pairs of a map, in ascending order of their keys, no two of which are equal. Places are counted from 0.
///
/// They lie in runs, one after the other, so that a new pair moves those of one run alone. Contracts see the list of the keys
/// and values as plain data.
#[cycle(value)]
#[derive(Debug)]
pub struct Pairs {
    pub(crate) runs: Vec<Run>,
    pub(crate) count: usize,
}

impl Drop for Pairs {
    #[cycle(drop)]
    fn drop(self) {
        let Pairs { runs: _, count: _ } = self;
    }
}

// Pairs that lie together, and how many pairs there are up to the last of them, with those of all runs before, so that a place
// is found by halving.
#[cycle(value)]
#[derive(Debug)]
pub(crate) struct Run {
    pub(crate) pairs: Vec<Pair>,
    pub(crate) end: usize,
}

impl Drop for Run {
    #[cycle(drop)]
    fn drop(self) {
        let Run { pairs: _, end: _ } = self;
    }
}

impl Model for List {
    ghost use Rattle.std.specs.Prelude as std;
    ghost use Rattle.sz_value.specs.Data.{Datum};
    ghost use Rattle.sz_value.specs.Code.{parts_code, parts_nodes};

    ghost Value = { std.List Datum };

    ghost coded = { parts_code };

    ghost use Rattle.sz_value.specs.Seen.{seen};

    ghost view = { λ list. std.map seen list.values.items };

    ghost size = { parts_nodes };

    ghost use Rattle.sz_value.specs.Falls.{most_le-parts};

    ghost size_decreases = { λ list h. most_le-parts list.values.items };
}

impl Model for Pairs {
    ghost use Rattle.std.specs.Prelude as std;
    ghost use Rattle.std.specs.Prelude.{◌≡◌, ◌<◌, ◌^◌};
    ghost use Rattle.sz_value.specs.Data.{Datum};
    ghost use Rattle.sz_value.specs.Code.{pairs_code, pairs_nodes};

    ghost Value = { std.List (Datum × Datum) };

    ghost coded = { pairs_code };

    ghost use Rattle.sz_value.specs.Seen.{seen_runs};
    ghost use Rattle.sz_value.specs.Runs.{AreRuns, AreEnds};

    ghost view = { λ pairs. seen_runs pairs.runs.items };

    ghost invariant = { λ pairs. record {
      runs : AreRuns pairs.runs.items;
      ends : AreEnds 0 pairs.runs.items;
      count : pairs.count ≡ std.length (seen_runs pairs.runs.items);
      small : pairs.count < 2 ^ 63;
    } };

    ghost size = { pairs_nodes };

    ghost use Rattle.sz_value.specs.Falls.{most_le-runs};

    ghost size_decreases = { λ pairs h. most_le-runs pairs.runs.items };
}
