//! The first records that fault of the shards of a part.
ghost use Rattle.std.specs.Prelude.{◌≡◌, ◌+◌, [], IfOk, option_map};
ghost use Rattle.sz_workers.specs.FirstFaults.{next_of, merged};
ghost use Rattle.sz_workers.specs.FirstOfBoth.{IsFirstOfBoth};

use std::alloc::Global;
use sz_attempt::{Faults, Skipped};
use sz_list::Items;
use sz_value::NoMemory;

/// The first records that fault of some shards, in the order of the input, as many as are of use.
#[derive(Drop)]
pub struct FirstFaults {
    pub(crate) alloc: Global,
    pub(crate) faults: Faults,
    /// How many are of use: one more than may be passed over. It is 0 where there is no shard.
    pub(crate) most: u64,
}

/// Those of no shard.
pub(crate) fn no_faults(alloc: Global) -> FirstFaults
    ensures value { result ≡ record { alloc = alloc; faults = []; most = 0 } }
{
    FirstFaults {
        alloc,
        faults: Items::new(alloc),
        most: 0,
    }
}

/// Those of one shard, where no more fault than may be passed over.
pub(crate) fn first_faults(alloc: Global, skip: u32, faults: Faults) -> FirstFaults
    ensures value { result ≡ record { alloc = alloc; faults = faults; most = skip + 1 } }
{
    FirstFaults {
        alloc,
        faults,
        most: u64::from(skip) + 1,
    }
}

/// The first of both, in the order of the input.
pub(crate) fn first_of_both(
    ours: &FirstFaults,
    theirs: &FirstFaults,
) -> Result<FirstFaults, NoMemory>
    ensures value { IfOk result (λ first. IsFirstOfBoth ours.now theirs.now first) }
{
    let most = ours.most.max(theirs.most);
    let faults = merged(
        ours.alloc,
        ours.faults.as_slice(),
        theirs.faults.as_slice(),
        most,
    )?;
    Ok(FirstFaults {
        alloc: ours.alloc,
        faults,
        most,
    })
}

/// The first so many of both lists, in the order of the input.
pub(crate) fn merged(
    alloc: Global,
    first: &[Skipped],
    other: &[Skipped],
    most: u64,
) -> Result<Faults, NoMemory>
    ensures value { IfOk result (λ faults. faults ≡ merged most first.now other.now) }
{
    let mut faults = Items::new(alloc);
    let mut ours = first;
    let mut theirs = other;
    for taken in 0..most {
        let Some((next, our_rest, their_rest)) = next_of(ours, theirs) else {
            return Ok(faults);
        };
        faults.push(next)?;
        ours = our_rest;
        theirs = their_rest;
    }
    Ok(faults)
}

// The first of both lists, and what is left of each.
fn next_of<'s>(
    ours: &'s [Skipped],
    theirs: &'s [Skipped],
) -> Option<(Skipped, &'s [Skipped], &'s [Skipped])>
    ensures value { option_map (λ n. (n.0, n.1.now, n.2.now)) result ≡ next_of ours.now theirs.now }
{
    match (ours, theirs) {
        ([], []) => None,
        ([first, rest @ ..], []) => Some((*first, rest, theirs)),
        ([], [first, rest @ ..]) => Some((*first, ours, rest)),
        ([first, rest @ ..], [other, later @ ..]) => {
            if first.record_no <= other.record_no {
                Some((*first, rest, theirs))
            } else {
                Some((*other, ours, later))
            }
        }
    }
}
