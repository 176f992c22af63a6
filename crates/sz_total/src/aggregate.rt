//! The aggregator of a table of any kind.
ghost use Rattle.std.specs.Prelude.{◌≡◌, ◌<◌, ◌≤◌, ◌+◌, ◌^◌, true, IfOk, OnOk, OnErr};
ghost use Rattle.sz_types.specs.SeenTables.{seen_table};
ghost use Rattle.sz_value.specs.Seen.{seen};
ghost use Rattle.sz_tabs.specs.Aggregating.{weighted, IsNew, Gains};
ghost use Rattle.sz_tabs.specs.Fitting.{Fits};
ghost use Rattle.sz_total.specs.Aggregates.{declaration_of, count_of, shown_of, IsBounded, sums, family_of, family_for, HasRoomFor, ChangesRoomAlone, IsJoined};
ghost use Rattle.sz_total.specs.Weights.{HasItsWeights};

use crate::boxed::BoxedMembers;
use std::alloc::Global;
use sz_extreme::Extreme;
use sz_sum::Sum;
use sz_tabs::{Aggregator, NoMemory, Rows};
use sz_types::{TableDecl, TableKind};
use sz_value::Value;

/// The aggregator of the kind that its table has.
#[derive(Drop)]
pub(crate) enum Aggregate<'a> {
    Sum(Sum<'a>),
    Extreme(Extreme<'a>),
    Members(BoxedMembers<'a>),
}

// An aggregator of a table before any emit.
pub(crate) fn new_aggregate<'a>(
    alloc: Global,
    table: &'a TableDecl,
) -> Result<Aggregate<'a>, NoMemory>
    requires weights { HasItsWeights (seen_table table.now) }
    ensures empty { IfOk result (IsNew declaration_of count_of shown_of (seen_table table.now)) }
    ensures family { IfOk result (λ aggregate. family_of aggregate ≡ family_for (seen_table table.now).kind) }
{
    match table.kind {
        TableKind::Sum => Ok(Aggregate::Sum(Sum::new(alloc, table)?)),
        TableKind::Maximum | TableKind::Minimum => {
            Ok(Aggregate::Extreme(Extreme::new(alloc, table)))
        }
        TableKind::Set | TableKind::Collection => {
            Ok(Aggregate::Members(BoxedMembers::new(alloc, table)?))
        }
    }
}

// Adds an emit: its value, and its weight where the table has weights.
pub(crate) fn add_to<'a>(
    aggregate: &mut Aggregate<'a>,
    value: &Value,
    weight: Option<i64>,
) -> Result<(), NoMemory>
    requires fits { Fits (declaration_of aggregate.old) (weighted (seen value.now) weight) }
    requires room { count_of aggregate.old < 2 ^ 63 }
    ensures ok { OnOk result (Gains declaration_of count_of shown_of aggregate.old aggregate.new (weighted (seen value.now) weight)) }
    ensures err { OnErr result (aggregate.new ≡ aggregate.old) }
    ensures family { family_of aggregate.new ≡ family_of aggregate.old }
{
    match aggregate {
        Aggregate::Sum(sum) => sum.add(value, weight),
        Aggregate::Extreme(extreme) => extreme.add(value, weight),
        Aggregate::Members(members) => members.add(value, weight),
    }
}

// Whether it is a sum, which needs no room for a merge.
pub(crate) fn is_sum<'a>(aggregate: &Aggregate<'a>) -> bool
    ensures sum { (result ≡ true) → family_of aggregate.now ≡ sums }
{
    matches!(aggregate, Aggregate::Sum(_))
}

// Makes room for a merge of the other side, which is of the same family.
pub(crate) fn reserve_for<'a>(
    aggregate: &mut Aggregate<'a>,
    other: &Aggregate<'a>,
) -> Result<(), NoMemory>
    requires alike { family_of other.now ≡ family_of aggregate.old }
    ensures ok { OnOk result (HasRoomFor aggregate.new other.now) }
    ensures kept { ChangesRoomAlone aggregate.old aggregate.new }
    ensures err { OnErr result (aggregate.new ≡ aggregate.old) }
{
    match (aggregate, other) {
        (Aggregate::Sum(sum), Aggregate::Sum(other)) => sum.reserve(other),
        (Aggregate::Extreme(extreme), Aggregate::Extreme(other)) => extreme.reserve(other),
        (Aggregate::Members(members), Aggregate::Members(other)) => members.reserve(other),
        _ => Ok(()),
    }
}

// Merges the other side, for which there is room.
pub(crate) fn merge_into<'a>(aggregate: &mut Aggregate<'a>, other: Aggregate<'a>)
    requires declared { declaration_of other ≡ declaration_of aggregate.old }
    requires few { count_of aggregate.old + count_of other ≤ 2 ^ 63 }
    requires room { HasRoomFor aggregate.old other }
    ensures value { IsJoined aggregate.old other.entry aggregate.new }
{
    match (aggregate, other) {
        (Aggregate::Sum(sum), Aggregate::Sum(other)) => {
            let _ = sum.merge(other);
        }
        (Aggregate::Extreme(extreme), Aggregate::Extreme(other)) => {
            let _ = extreme.merge(other);
        }
        (Aggregate::Members(members), Aggregate::Members(other)) => {
            members.merge(other);
        }
        _ => {}
    }
}

// The rows, in the order in which they are printed.
pub(crate) fn rows_shown<'a>(aggregate: &Aggregate<'a>) -> Result<Rows, NoMemory>
    ensures value { IfOk result (λ rows. rows ≡ shown_of aggregate.now) }
    ensures bounded { IsBounded aggregate.now }
{
    match aggregate {
        Aggregate::Sum(sum) => sum.rows(),
        Aggregate::Extreme(extreme) => extreme.rows(),
        Aggregate::Members(members) => members.rows(),
    }
}
