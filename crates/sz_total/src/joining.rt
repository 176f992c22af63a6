//! The merge of one table's aggregators with those of another side: first all room is made, and then nothing can be refused.
ghost use Rattle.std.specs.Prelude.{◌≡◌, ◌<◌, ◌≤◌, ◌+◌, ◌^◌, true, IfSome, OnOk};
ghost use Rattle.std.specs.Map.{lookup};
ghost use Rattle.indexmap.specs.IndexMap.{index_map_len, spare};
ghost use Rattle.sz_total.specs.Aggregates.{family_of};
ghost use Rattle.sz_total.specs.Entries.{same_indexes};
ghost use Rattle.sz_total.specs.Joining.{GainsRoom, LooksTheSame, BeginsWithSum, HasRoomUnder, HaveRoomFor};
ghost use Rattle.sz_total.specs.Joining.{MayTakeUnder, AreAlike, AreReady, TakesOne, JoinsEntries};

use crate::aggregate::{Aggregate, is_sum, merge_into, reserve_for};
use crate::index_lists::IndexLists;
use indexmap::map::Entry;
use sz_flat::FlatList;
use sz_tabs::NoMemory;

// Makes room for a merge of the other side: for its index lists, and in the aggregators that both sides have. Sums need none of their own.
pub(crate) fn make_room<'a>(
    lists: &mut IndexLists<'a>,
    others: &IndexLists<'a>,
) -> Result<(), NoMemory>
    requires alike { AreAlike lists.old.entries others.now.entries }
    ensures ok { OnOk result (HaveRoomFor lists.new.entries others.now.entries) }
    ensures spare { OnOk result (index_map_len others.now ≤ spare lists.new) }
    ensures kept { LooksTheSame lists.old.entries lists.new.entries }
    ensures capacity { index_map_len lists.old + spare lists.old ≤ index_map_len lists.new + spare lists.new }
{
    lists.reserve(others.len())?;
    if begin_with_sum(others) {
        return Ok(());
    }
    make_room_in_each(lists, others)
}

// Whether the first aggregator is a sum, if there is one. All are of one family.
fn begin_with_sum<'a>(others: &IndexLists<'a>) -> bool
    ensures sum { (result ≡ true) → BeginsWithSum others.now.entries }
{
    match others.first() {
        Some((_, other)) => is_sum(other),
        None => true,
    }
}

// Makes room in the aggregators that both sides have.
fn make_room_in_each<'a>(
    lists: &mut IndexLists<'a>,
    others: &IndexLists<'a>,
) -> Result<(), NoMemory>
    requires alike { AreAlike lists.old.entries others.now.entries }
    ensures ok { OnOk result (HaveRoomFor lists.new.entries others.now.entries) }
    ensures kept { LooksTheSame lists.old.entries lists.new.entries }
    ensures len { index_map_len lists.new ≡ index_map_len lists.old }
    ensures spare { spare lists.new ≡ spare lists.old }
{
    for (key, other) in others {
        make_room_under(lists, key, other)?;
    }
    Ok(())
}

// Makes room for the other aggregator in that under its index list, if there is one.
fn make_room_under<'a>(
    lists: &mut IndexLists<'a>,
    key: &FlatList,
    other: &Aggregate<'a>,
) -> Result<(), NoMemory>
    requires alike { IfSome (lookup (same_indexes key.now) lists.old.entries) (λ own. family_of other.now ≡ family_of own) }
    ensures ok { OnOk result (HasRoomUnder lists.new.entries (key.now, other.now)) }
    ensures kept { GainsRoom key.now lists.old.entries lists.new.entries }
    ensures len { index_map_len lists.new ≡ index_map_len lists.old }
    ensures spare { spare lists.new ≡ spare lists.old }
{
    match lists.get_mut(key) {
        Some(own) => reserve_for(own, other),
        None => Ok(()),
    }
}

// Takes each aggregator of the other side. There is room for them.
pub(crate) fn take_all<'a>(lists: &mut IndexLists<'a>, others: IndexLists<'a>)
    requires ready { AreReady (2 ^ 63) lists.old.entries others.entries }
    requires room { index_map_len others ≤ spare lists.old }
    ensures value { JoinsEntries others.entry.entries lists.old.entries lists.new.entries }
    ensures capacity { index_map_len lists.old + spare lists.old ≤ index_map_len lists.new + spare lists.new }
{
    for (key, other) in others {
        take(lists, key, other);
    }
}

// Joins the other aggregator with that under its index list, or puts it there. There is room for it.
fn take<'a>(lists: &mut IndexLists<'a>, key: FlatList, other: Aggregate<'a>)
    requires may { MayTakeUnder (2 ^ 63) lists.old.entries (key, other) }
    requires room { 0 < spare lists.old }
    ensures value { TakesOne key other.entry lists.old.entries lists.new.entries }
    ensures spare { spare lists.old ≤ spare lists.new + 1 }
    ensures capacity { index_map_len lists.old + spare lists.old ≤ index_map_len lists.new + spare lists.new }
{
    match lists.entry(key) {
        Ok(Entry::Occupied(own)) => merge_into(own.into_mut(), other),
        Ok(Entry::Vacant(place)) => {
            place.insert(other);
        }
        Err(_) => unreachable!(),
    }
}
