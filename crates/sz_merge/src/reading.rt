//! A file that is joined to the last group while it is read.
ghost use Rattle.std.specs.Prelude.{◌≡◌, ◌≢◌, ◌≤◌, ◌+◌, [], ℕ, List, Some, vec_len, IfOk, IfErr};
ghost use Rattle.sz_save_format.specs.Saved.{most_bound};
ghost use Rattle.sz_save_format.specs.DecodingRows.{head_at};
ghost use Rattle.sz_save.specs.Reading.{JoinsRead};
ghost use Rattle.sz_merge.specs.Together.{CanBeTogether, bounds_of};
ghost use Rattle.sz_merge.specs.Groups.{held_by};
ghost use Rattle.sz_merge.specs.Reading.{AddsRead, StopsLast, StopsGroups, IsOtherOrBad};

use crate::error::MergeError;
use crate::groups::{Group, row_count, with_group};
use std::alloc::Global;
use sz_save::{ReadJoinError, Saved, SavedError, join_read, read_saved};

// The groups with a file of these bytes, which is joined to the last one while it is read.
pub(crate) fn with_read(
    alloc: Global,
    groups: Vec<Group>,
    bytes: &[u8],
) -> Result<Vec<Group>, MergeError>
    requires can { CanBeTogether (held_by groups.items) }
    requires some { 1 ≤ vec_len groups }
    requires low { (bound : ℕ) (rest : List ℕ) → head_at bytes.now ≡ Some (bound, rest) → bounds_of (held_by groups.items) + bound ≤ most_bound }
    ensures value { IfOk result (λ now. AddsRead (held_by groups.items) bytes.now (held_by now.items)) }
    ensures some { IfOk result (λ now. held_by now.items ≢ []) }
    ensures stopped { IfErr result (λ cause. StopsGroups (held_by groups.items) bytes.now cause) }
{
    let mut groups = groups;
    let Some(last) = groups.pop() else {
        unreachable!()
    };
    let Group {
        saved,
        rows: _,
        width,
    } = last;
    let both = joined_read(alloc, saved, bytes)?;
    let rows = row_count(&both);
    let group = Group {
        saved: both,
        rows,
        width,
    };
    let now = with_group(alloc, groups, group)?;
    Ok(now)
}

// A state with what a file of these bytes holds.
#[tactic(auto, using(crate::proofs::ReadingLemmas::other_stops))]
fn joined_read(alloc: Global, one: Saved, bytes: &[u8]) -> Result<Saved, MergeError>
    requires low { (bound : ℕ) (rest : List ℕ) → head_at bytes.now ≡ Some (bound, rest) → one.bound + bound ≤ most_bound }
    ensures value { IfOk result (λ both. JoinsRead one bytes.now both) }
    ensures stopped { IfErr result (λ cause. StopsLast one bytes.now cause) }
{
    match join_read(alloc, one, bytes) {
        Ok(both) => Ok(both),
        Err(ReadJoinError::NotSaved) => Err(MergeError::BadTables),
        Err(ReadJoinError::Other) => Err(other_or_bad(alloc, bytes)),
        Err(ReadJoinError::NoMemory) => Err(MergeError::NoMemory),
    }
}

// Why a file with another declaration isn't joined: what is behind that declaration is read too.
fn other_or_bad(alloc: Global, bytes: &[u8]) -> MergeError
    ensures value { IsOtherOrBad bytes.now result }
{
    match read_saved(alloc, bytes) {
        Ok(_) => MergeError::OtherTables,
        Err(SavedError::NotSaved) => MergeError::BadTables,
        Err(SavedError::NoMemory) => MergeError::NoMemory,
    }
}
