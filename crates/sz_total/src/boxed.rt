//! The aggregator of members in a box.
ghost use Rattle.std.specs.Prelude.{◌≡◌, ◌⊎◌, ◌<◌, ◌≤◌, ◌+◌, ◌^◌, IfOk, OnOk, OnErr};
ghost use Rattle.sz_types.specs.SeenTables.{seen_table};
ghost use Rattle.sz_types.specs.declared.table.TableKind.TheVariants as kinds;
ghost use Rattle.sz_value.specs.Seen.{seen};
ghost use Rattle.sz_tabs.specs.Aggregating.{weighted, IsNew, Gains, Joins};
ghost use Rattle.sz_tabs.specs.Fitting.{Fits};
ghost use Rattle.sz_members.specs.Data.{rows_of_members, HasRoomFor, ChangesRoomAlone};

use std::alloc::Global;
use std::marker::Model;
use sz_members::Members;
use sz_tabs::{Aggregator, NoMemory, Rows};
use sz_types::TableDecl;
use sz_value::Value;

/// The aggregator of a set or a collection in a box, so that the aggregators of other kinds take no room for it. Contracts see the
/// aggregator.
#[derive(Drop)]
pub(crate) struct BoxedMembers<'a> {
    members: Box<Members<'a>>,
}

impl<'a> Model for BoxedMembers<'a> {
    ghost use Rattle.sz_members.specs.Data.{Counted};
    ghost use Rattle.sz_members.specs.Code.{counted_code};

    ghost Value = { Counted };

    ghost coded = { counted_code };

    ghost view = { λ b. b.members.value };
}

impl<'a> BoxedMembers<'a> {
    // An aggregator before any emit.
    pub(crate) fn new(alloc: Global, table: &'a TableDecl) -> Result<BoxedMembers<'a>, NoMemory>
        requires kind { ((seen_table table.now).kind ≡ kinds.Set) ⊎ ((seen_table table.now).kind ≡ kinds.Collection) }
        ensures empty { IfOk result (IsNew (λ m. m.table) (λ m. m.count) rows_of_members (seen_table table.now)) }
    {
        let members = Box::new(alloc, Members::new(alloc, table))?;
        Ok(BoxedMembers { members })
    }

    // Adds an emit.
    pub(crate) fn add(&mut self, value: &Value, weight: Option<i64>) -> Result<(), NoMemory>
        requires fits { Fits self.old.table (weighted (seen value.now) weight) }
        requires room { self.old.count < 2 ^ 63 }
        ensures ok { OnOk result (Gains (λ m. m.table) (λ m. m.count) rows_of_members self.old self.new (weighted (seen value.now) weight)) }
        ensures err { OnErr result (self.new ≡ self.old) }
    {
        self.members.add(value, weight)
    }

    // Makes room for a merge of the other side.
    pub(crate) fn reserve(&mut self, other: &BoxedMembers<'a>) -> Result<(), NoMemory>
        ensures ok { OnOk result (HasRoomFor self.new other.now) }
        ensures kept { ChangesRoomAlone self.old self.new }
        ensures err { OnErr result (self.new ≡ self.old) }
    {
        self.members.reserve(&other.members)
    }

    // Merges the other side, for which there is room.
    pub(crate) fn merge(&mut self, other: BoxedMembers<'a>)
        requires same { other.table ≡ self.old.table }
        requires few { self.old.count + other.count ≤ 2 ^ 63 }
        requires room { HasRoomFor self.old other }
        ensures value { Joins (λ m. m.table) (λ m. m.count) rows_of_members self.old other.entry self.new }
    {
        let _ = self.members.merge(Box::into_inner(other.members));
    }

    // The rows, in the order in which they are printed.
    pub(crate) fn rows(&self) -> Result<Rows, NoMemory>
        ensures value { IfOk result (λ rows. rows ≡ rows_of_members self.now) }
    {
        self.members.rows()
    }
}
