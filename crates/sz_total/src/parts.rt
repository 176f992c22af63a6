//! The parts in which a table keeps its index lists.
ghost use Rattle.std.specs.Prelude.{◌≡◌, ◌<◌, ◌-◌, ◌^◌, length, OnOk, OnErr};
ghost use Rattle.sz_types.specs.SeenTables.{seen_table};
ghost use Rattle.sz_tabs.specs.Fitting.{Fits};
ghost use Rattle.sz_tabs.specs.Rows.{brought_by};
ghost use Rattle.sz_total.specs.Parts.{part_of, ArePartsOf, IsPartOf, TakesEmitAt, PartTakesEmit, HavePartRoom, HasPartRoomAt, ChangesPartRoomAt, ArePartsAlike};
ghost use Rattle.sz_total.specs.Parts.{IsPartAlikeAt, PartsLookTheSame, Receives, ReceivesAt};
ghost use Rattle.sz_total.specs.Short.{HasShortParts};
ghost use Rattle.sz_total.specs.Weights.{HasItsWeights};

use crate::part::Part;
use std::alloc::Global;
use sz_flat::FlatList;
use sz_tabs::{Emit, NoMemory};
use sz_types::TableDecl;

// The number of the part of an index list, of so many parts.
pub(crate) fn place_of(key: &FlatList, count: usize) -> usize
    requires some { 0 < count }
    ensures value { result ≡ part_of count key.now }
    ensures within { result < count }
{
    key.digest() as usize % count
}

// Adds the emit to the part of its index list. Where there is one part alone, it needs no number.
pub(crate) fn add_to_part<'a>(
    alloc: Global,
    table: &'a TableDecl,
    parts: &mut Vec<Part<'a>>,
    key: &mut FlatList,
    emit: &Emit,
) -> Result<(), NoMemory>
    requires weights { HasItsWeights (seen_table table.now) }
    requires fits { Fits (seen_table table.now) (brought_by emit.now) }
    requires short { HasShortParts emit.now }
    requires some { 0 < length parts.old.items }
    requires of_table { ArePartsOf (seen_table table.now) (2 ^ 63 - 1) parts.old.items }
    ensures ok { OnOk result (PartTakesEmit (seen_table table.now) emit.now parts.old.items parts.new.items) }
    ensures err { OnErr result (parts.new.items ≡ parts.old.items) }
{
    if parts.len() == 1 {
        return add_to_first(alloc, table, parts, key, emit);
    }
    key.set(&emit.indexes)?;
    let at = place_of(key, parts.len());
    add_spelled(alloc, table, parts, at, key, emit)
}

// Adds the emit to the first part.
fn add_to_first<'a>(
    alloc: Global,
    table: &'a TableDecl,
    parts: &mut Vec<Part<'a>>,
    key: &mut FlatList,
    emit: &Emit,
) -> Result<(), NoMemory>
    requires weights { HasItsWeights (seen_table table.now) }
    requires fits { Fits (seen_table table.now) (brought_by emit.now) }
    requires short { HasShortParts emit.now }
    requires of_table { IsPartOf (seen_table table.now) (2 ^ 63 - 1) 0 parts.old.items }
    ensures ok { OnOk result (TakesEmitAt (seen_table table.now) emit.now 0 parts.old.items parts.new.items) }
    ensures err { OnErr result (parts.new.items ≡ parts.old.items) }
{
    let part = &mut parts[0];
    part.take(alloc, table, key, emit)
}

// Adds the emit to the part with a number. The key is its index list.
fn add_spelled<'a>(
    alloc: Global,
    table: &'a TableDecl,
    parts: &mut Vec<Part<'a>>,
    at: usize,
    key: &FlatList,
    emit: &Emit,
) -> Result<(), NoMemory>
    requires weights { HasItsWeights (seen_table table.now) }
    requires fits { Fits (seen_table table.now) (brought_by emit.now) }
    requires short { HasShortParts emit.now }
    requires key { key.now ≡ emit.now.indexes }
    requires of_table { IsPartOf (seen_table table.now) (2 ^ 63 - 1) at parts.old.items }
    ensures ok { OnOk result (TakesEmitAt (seen_table table.now) emit.now at parts.old.items parts.new.items) }
    ensures err { OnErr result (parts.new.items ≡ parts.old.items) }
{
    let part = &mut parts[at];
    part.take_spelled(alloc, table, key, emit)
}

// Makes room in each part for that of the other side with its number.
pub(crate) fn reserve_parts<'a>(
    parts: &mut Vec<Part<'a>>,
    others: &Vec<Part<'a>>,
) -> Result<(), NoMemory>
    requires as_many { length others.now.items ≡ length parts.old.items }
    requires alike { ArePartsAlike parts.old.items others.now.items }
    ensures ok { OnOk result (HavePartRoom parts.new.items others.now.items) }
    ensures kept { PartsLookTheSame parts.old.items parts.new.items }
{
    for (at, other) in others.iter().enumerate() {
        reserve_part(parts, at, other)?;
    }
    Ok(())
}

// Makes room in the part with a number.
fn reserve_part<'a>(parts: &mut Vec<Part<'a>>, at: usize, other: &Part<'a>) -> Result<(), NoMemory>
    requires alike { IsPartAlikeAt at other.now parts.old.items }
    ensures ok { OnOk result (HasPartRoomAt at other.now parts.new.items) }
    ensures kept { ChangesPartRoomAt at parts.old.items parts.new.items }
{
    let part = &mut parts[at];
    part.reserve(other)
}

// Lets what each part of the other side has wait at that with its number.
pub(crate) fn receive_all<'a>(parts: &mut Vec<Part<'a>>, others: Vec<Part<'a>>)
    requires as_many { length others.items ≡ length parts.old.items }
    ensures value { Receives others.entry.items parts.old.items parts.new.items }
{
    let mut at = 0;
    for other in others {
        receive_at(parts, at, other);
        at += 1;
    }
}

// Lets what the other part has wait at that with a number.
fn receive_at<'a>(parts: &mut Vec<Part<'a>>, at: usize, other: Part<'a>)
    requires there { at < length parts.old.items }
    ensures value { ReceivesAt at other.entry parts.old.items parts.new.items }
{
    let part = &mut parts[at];
    part.receive(other.into_lists());
}
