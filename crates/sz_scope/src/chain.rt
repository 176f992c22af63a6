//! The declarations of all open blocks in one list, each linked to the one that it hides.
ghost use Rattle.std.specs.Prelude.{◌≡◌, ◌<◌, ◌≤◌, ◌++◌, ◌∷◌, [], ◌==◌, ℕ, suc, true, false, length, reverse, slice_get, set, Option, None, Some, IfOk, OnOk, OnErr, IfSome, IfNone};
ghost use Rattle.std.specs.Option.{option_copied, option_map, ForSome};
ghost use Rattle.sz_scope.specs.Chain.{without_deeper, HasRoomOf, IsIndexed, IsLinked, IsWithin, FindsNewest, KeepsSound, TellsTwice};
ghost use Rattle.sz_scope.specs.Names.{place_of};
ghost use Rattle.sz_scope.specs.Sight.{sees};

use crate::entry::Entry;
use crate::meaning::Meaning;
use crate::sight::Sight;
use crate::{Names, NoMemory};

// Takes the last entry out, if `depth` blocks or more are open round it.
fn pop_deeper(entries: &mut Vec<Entry>, depth: usize) -> Option<Entry>
    ensures some { IfSome result (λ e. (reverse entries.old.items ≡ e ∷ reverse entries.new.items) × (depth ≤ e.depth)) }
    ensures none { IfNone result (without_deeper depth (reverse entries.old.items) ≡ reverse entries.old.items) }
    ensures kept { IfNone result (entries.new.items ≡ entries.old.items) }
{
    match entries.last() {
        Some(last) if last.depth >= depth => entries.pop(),
        _ => None,
    }
}

// Takes out the entries round which `depth` blocks or more are open: each name means again what it meant before.
pub(crate) fn remove_deeper(entries: &mut Vec<Entry>, newest: &mut Vec<Option<usize>>, depth: usize)
    requires within { IsWithin (length newest.old.items) (reverse entries.old.items) }
    requires linked { IsLinked (reverse entries.old.items) }
    requires indexed { IsIndexed newest.old.items (reverse entries.old.items) }
    ensures entries { reverse entries.new.items ≡ without_deeper depth (reverse entries.old.items) }
    ensures indexed { IsIndexed newest.new.items (reverse entries.new.items) }
    ensures room { length newest.new.items ≡ length newest.old.items }
{
    while let Some(entry) = pop_deeper(entries, depth) {
        newest[entry.name] = entry.hidden;
    }
}

// Whether there is an entry at the place, with `depth` blocks open round it.
fn is_at_depth(entries: &[Entry], at: Option<usize>, depth: usize) -> bool
    requires within { ForSome at (λ place. place < length entries.now) }
    ensures some { ForSome at (λ place. option_map (λ e. e.depth == depth) (slice_get entries.now place) ≡ Some result) }
    ensures none { at ≡ None → result ≡ false }
{
    match at {
        Some(place) => entries[place].depth == depth,
        None => false,
    }
}

// The newest entry of a name that may have a place.
fn newest_of(newest: &[Option<usize>], known: Option<usize>) -> Option<usize>
    requires within { ForSome known (λ name. name < length newest.now) }
    ensures some { ForSome known (λ name. slice_get newest.now name ≡ Some result) }
    ensures none { known ≡ None → result ≡ None }
{
    match known {
        Some(name) => newest[name],
        None => None,
    }
}

// Whether the block round which `depth` blocks are open, the innermost one, has a name that may have a place.
pub(crate) fn is_twice(
    entries: &[Entry],
    newest: &[Option<usize>],
    known: Option<usize>,
    depth: usize,
) -> bool
    requires within { ForSome known (λ name. name < length newest.now) }
    requires indexed { IsIndexed newest.now (reverse entries.now) }
    ensures value { TellsTwice known newest.now (reverse entries.now) depth result }
{
    is_at_depth(entries, newest_of(newest, known), depth)
}

// Makes room for the newest entry of one more name than these.
fn make_room(newest: &mut Vec<Option<usize>>, names: usize) -> Result<(), NoMemory>
    ensures room { OnOk result (names ≤ length newest.old.items → names < length newest.new.items) }
    ensures kept { HasRoomOf newest.old.items newest.new.items }
{
    if newest.len() == names {
        newest.push(None)?;
    }
    Ok(())
}

// The place of a name, which is added where it has none.
pub(crate) fn place_for(
    names: &mut Names,
    newest: &mut Vec<Option<usize>>,
    name: &str,
    known: Option<usize>,
) -> Result<usize, NoMemory>
    requires known { known ≡ place_of name.now names.old }
    ensures place { IfOk result (λ place. place_of name.now names.new ≡ Some place) }
    ensures kept { KeepsSound names.old names.new newest.old.items newest.new.items }
{
    if let Some(place) = known {
        return Ok(place);
    }
    let place = names.len();
    make_room(newest, place)?;
    names.add(name)?;
    Ok(place)
}

// Appends an entry, which hides the newest one of its name.
pub(crate) fn push_entry(
    entries: &mut Vec<Entry>,
    newest: &mut Vec<Option<usize>>,
    entry: Entry,
) -> Result<(), NoMemory>
    requires within { entry.name < length newest.old.items }
    ensures entries { OnOk result (entries.new.items ≡ entries.old.items ++ entry ∷ []) }
    ensures newest { OnOk result (newest.new.items ≡ set newest.old.items entry.name (Some (length entries.old.items))) }
    ensures err { OnErr result ((entries.new.items ≡ entries.old.items) × (newest.new.items ≡ newest.old.items)) }
{
    let place = entries.len();
    entries.push(entry)?;
    newest[entry.name] = Some(place);
    Ok(())
}

// What the newest entry means.
pub(crate) fn newest_entry(entries: &[Entry], newest: Option<usize>) -> Option<&Meaning>
    requires linked { IsLinked (reverse entries.now) }
    requires within { ForSome newest (λ place. place < length entries.now) }
    ensures value { FindsNewest (λ d w. true) newest (reverse entries.now) (option_copied result) }
{
    match newest {
        Some(place) => Some(&entries[place].what),
        None => None,
    }
}

// What the first entry that is seen means, from `newest` on along the hidden ones.
pub(crate) fn find_seen(entries: &[Entry], newest: Option<usize>, sight: Sight) -> Option<&Meaning>
    requires linked { IsLinked (reverse entries.now) }
    requires within { ForSome newest (λ place. place < length entries.now) }
    ensures value { FindsNewest (sees sight) newest (reverse entries.now) (option_copied result) }
{
    let mut at = newest;
    while let Some(place) = at {
        let entry = &entries[place];
        if sight.sees(entry.depth, entry.what) {
            return Some(&entry.what);
        }
        at = entry.hidden;
    }
    None
}
