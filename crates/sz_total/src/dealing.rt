//! The index lists of a large table, dealt to parts by their numbers.
ghost use Rattle.std.specs.Prelude.{◌≡◌, ◌<◌, ◌^◌, [], length, IfOk, OnOk, OnErr};
ghost use Rattle.sz_total.specs.Dealing.{AreCounted, HaveShares, MayPut, PutsLast};
ghost use Rattle.sz_total.specs.Parts.{entries_of};

use crate::aggregate::Aggregate;
use crate::index_lists::IndexLists;
use crate::part::Part;
use crate::parts::place_of;
use std::alloc::Global;
use std::mem;
use sz_flat::FlatList;
use sz_tabs::NoMemory;

// How many parts a large table has, so that as many threads can merge it.
const PARTS: usize = 16;

// Deals the index lists of the only part to 16 parts. All memory is asked for first: where there is none, all is as before.
pub(crate) fn deal_out<'a>(alloc: Global, parts: &mut Vec<Part<'a>>) -> Result<(), NoMemory>
    requires one { length parts.old.items ≡ 1 }
    ensures ok { OnOk result (HaveShares (entries_of parts.old.items) [] parts.new.items) }
    ensures err { OnErr result (parts.new.items ≡ parts.old.items) }
{
    let dealt = roomy_parts(alloc, parts[0].lists())?;
    let mut whole = mem::replace(parts, dealt);
    if let Some(part) = whole.pop() {
        deal_all(part.into_lists(), parts);
    }
    Ok(())
}

// 16 parts with nothing in them, each with room for its share of these.
fn roomy_parts<'a>(alloc: Global, lists: &IndexLists<'a>) -> Result<Vec<Part<'a>>, NoMemory>
    ensures value { IfOk result (λ parts. HaveShares [] lists.now.entries parts.items) }
{
    let counts = counted(lists);
    let mut parts = Vec::with_capacity(alloc, PARTS)?;
    for at in 0..PARTS {
        parts.push(Part::with_room(alloc, counts[at])?)?;
    }
    Ok(parts)
}

// How many of the index lists are for each part.
fn counted<'a>(lists: &IndexLists<'a>) -> [usize; PARTS]
    ensures value { AreCounted lists.now.entries result }
{
    let mut counts = [0; PARTS];
    for (key, _) in lists {
        counts[place_of(key, PARTS)] += 1;
    }
    counts
}

// Puts each aggregator in the part of its index list. There is room for them.
fn deal_all<'a>(lists: IndexLists<'a>, parts: &mut Vec<Part<'a>>)
    requires room { HaveShares [] lists.entries parts.old.items }
    ensures value { HaveShares lists.entry.entries [] parts.new.items }
{
    for (key, aggregate) in lists {
        deal(key, aggregate, parts);
    }
}

// Puts an aggregator in the part of its index list, where that isn't yet. There is room for it.
fn deal<'a>(key: FlatList, aggregate: Aggregate<'a>, parts: &mut Vec<Part<'a>>)
    requires may { MayPut key parts.old.items }
    ensures value { PutsLast key aggregate.entry parts.old.items parts.new.items }
{
    let at = place_of(&key, PARTS);
    let part = &mut parts[at];
    part.put(key, aggregate);
}
