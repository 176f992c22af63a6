//! Files that are joined, one after the other.
ghost use Rattle.std.specs.Prelude.{◌≡◌, ◌≢◌, ◌↔◌, ◌+◌, ◌≤◌, ◌++◌, ◌∷◌, [], List, IsTrue, IfOk, IfErr};
ghost use Rattle.sz_save_format.specs.Saved.{SavedState, most_bound};
ghost use Rattle.sz_merge.specs.Together.{AreTogether, HasSameTables, bounds_of};
ghost use Rattle.sz_merge.specs.Files.{IsUnfit, IsStopped};
ghost use Rattle.sz_merge.specs.Groups.{AreOf, Adds, CanTake};
ghost use Rattle.sz_merge.specs.Reading.{FitsBehind};

use crate::error::MergeError;
use crate::groups::{Group, is_small, join_all, row_count, with_group};
use crate::reading::with_read;
use std::alloc::Global;
use std::marker::Model;
use sz_save::{NoMemory, Saved, read_head, read_saved, same_decls};

/// The greatest bound.
const MOST: u64 = 1 << 63;

/// Files that were joined, in groups of files that stand side by side. Each group has more than twice as many rows as the next, so that all
/// together have less than twice the rows of the first, and no row is moved many times; no clause says so.
///
/// Contracts see what each group holds. It takes memory for what the groups hold, and for no file's bytes.
pub struct Merging {
    groups: Vec<Group>,
    bound: u64,
}

impl Drop for Merging {
    fn drop(self) {
        let Merging {
            groups: _,
            bound: _,
        } = self;
    }
}

impl Model for Merging {
    ghost use Rattle.std.specs.Prelude.{List};
    ghost use Rattle.std.specs.Coded.{coded_list};
    ghost use Rattle.sz_save_format.specs.Saved.{SavedState};
    ghost use Rattle.sz_save_format.specs.Code.{saved_code};
    ghost use Rattle.sz_merge.specs.Groups.{held_by, HasBound};

    ghost Value = { List SavedState };

    ghost coded = { coded_list saved_code };

    ghost view = { λ m. held_by m.groups.items };

    ghost invariant = { λ m. HasBound (held_by m.groups.items) m.bound };
}

impl Merging {
    /// No files, which takes no memory.
    pub fn new(alloc: Global) -> Merging
        ensures value { AreOf result [] }
    {
        Merging {
            groups: Vec::new(alloc),
            bound: 0,
        }
    }

    /// Whether there are no files yet.
    pub fn is_empty(&self) -> bool
        ensures value { IsTrue result ↔ (self.now ≡ []) }
    {
        self.groups.is_empty()
    }

    /// Adds a file of these bytes. `BadTables` comes where they aren't those of saved tables, else `OtherTables` where the declarations differ
    /// from those of the first file, else `TablesLimit` where the bounds together pass 2^63.
    pub fn add(self, alloc: Global, bytes: &[u8]) -> Result<Merging, MergeError>
        ensures ok { (before : List SavedState) → AreOf self before → IfOk result (λ groups. Adds before bytes.now groups) }
        ensures stopped { (before : List SavedState) → AreOf self before → IfErr result (λ cause. IsStopped before bytes.now cause) }
        ensures some { IfOk result (λ groups. groups ≢ []) }
    {
        if self.fits_behind(bytes) {
            return self.add_read(alloc, bytes);
        }
        self.add_group(alloc, bytes)
    }

    // Whether a file of these bytes is joined to the last group while it is read: where its bound is low enough, and the group has at most twice
    // as many rows, by the bytes that a row takes.
    fn fits_behind(&self, bytes: &[u8]) -> bool
        ensures value { IsTrue result → FitsBehind self.now bytes.now }
    {
        if self.is_empty() {
            return false;
        }
        let Ok((more, _)) = read_head(bytes) else {
            return false;
        };
        if !is_low(self.bound, more) {
            return false;
        }
        self.has_small_last(bytes)
    }

    // Whether there is a group, and the last has at most about twice as many rows as a file of these bytes.
    fn has_small_last(&self, bytes: &[u8]) -> bool {
        match self.groups.last() {
            Some(last) => is_small(last, rows_in(bytes, last.width)),
            None => false,
        }
    }

    // The same of a file that is joined to the last group while it is read.
    fn add_read(self, alloc: Global, bytes: &[u8]) -> Result<Merging, MergeError>
        requires fits { FitsBehind self bytes.now }
        ensures ok { (before : List SavedState) → AreOf self before → IfOk result (λ groups. Adds before bytes.now groups) }
        ensures stopped { (before : List SavedState) → AreOf self before → IfErr result (λ cause. IsStopped before bytes.now cause) }
        ensures some { IfOk result (λ groups. groups ≢ []) }
    {
        let (more, _) = read_head(bytes)?;
        let Merging { groups, bound } = self;
        let now = with_read(alloc, groups, bytes)?;
        Ok(Merging {
            groups: now,
            bound: bound + more,
        })
    }

    // The same of a file that is a group of its own.
    fn add_group(self, alloc: Global, bytes: &[u8]) -> Result<Merging, MergeError>
        ensures ok { (before : List SavedState) → AreOf self before → IfOk result (λ groups. Adds before bytes.now groups) }
        ensures stopped { (before : List SavedState) → AreOf self before → IfErr result (λ cause. IsStopped before bytes.now cause) }
        ensures some { IfOk result (λ groups. groups ≢ []) }
    {
        let saved = read_saved(alloc, bytes)?;
        let bound = self.bound_with(&saved)?;
        let Merging { groups, bound: _ } = self;
        let rows = row_count(&saved);
        let width = width_of(bytes, rows);
        let groups = with_group(alloc, groups, Group { saved, rows, width })?;
        Ok(Merging { groups, bound })
    }

    // The bounds together with that of a state that can be joined.
    fn bound_with(&self, saved: &Saved) -> Result<u64, MergeError>
        ensures same { IfOk result (λ bound. HasSameTables self.now saved.now) }
        ensures bound { IfOk result (λ bound. bound ≡ bounds_of self.now + saved.now.bound) }
        ensures low { IfOk result (λ bound. bound ≤ most_bound) }
        ensures unfit { IfErr result (λ cause. IsUnfit self.now saved.now cause) }
    {
        if !self.has_tables(saved) {
            return Err(MergeError::OtherTables);
        }
        if self.bound > MOST - saved.bound() {
            return Err(MergeError::TablesLimit);
        }
        Ok(self.bound + saved.bound())
    }

    // Whether a state has the declarations of the first group, if there is one.
    fn has_tables(&self, saved: &Saved) -> bool
        ensures value { IsTrue result ↔ HasSameTables self.now saved.now }
    {
        match self.groups.first() {
            Some(first) => same_decls(saved.decls(), first.saved.decls()),
            None => true,
        }
    }

    /// Adds a state that can be joined to the others.
    pub fn take(self, alloc: Global, saved: Saved) -> Result<Merging, NoMemory>
        requires can { CanTake self saved }
        ensures value { (before : List SavedState) → AreOf self before → IfOk result (λ groups. AreOf groups (before ++ saved ∷ [])) }
    {
        let bound = self.bound + saved.bound();
        let Merging { groups, bound: _ } = self;
        let rows = row_count(&saved);
        let width = 0;
        let groups = with_group(alloc, groups, Group { saved, rows, width })?;
        Ok(Merging { groups, bound })
    }

    /// What all files hold together. There is one at least.
    pub fn finish(self, alloc: Global) -> Result<Saved, NoMemory>
        requires some { self ≢ [] }
        ensures value { (states : List SavedState) → AreOf self states → IfOk result (λ all. AreTogether states all) }
    {
        let Merging { groups, bound: _ } = self;
        join_all(alloc, groups)
    }
}

// Whether both bounds together aren't too large.
fn is_low(bound: u64, more: u64) -> bool
    ensures value { IsTrue result → bound + more ≤ most_bound }
{
    more <= MOST && bound <= MOST - more
}

// How many bytes a file has for a row, where it has so many rows.
fn width_of(bytes: &[u8], rows: usize) -> usize {
    if rows == 0 {
        return bytes.len();
    }
    bytes.len() / rows
}

// How many rows a file may have, where each has about so many bytes.
fn rows_in(bytes: &[u8], width: usize) -> usize {
    if width == 0 {
        return bytes.len();
    }
    bytes.len() / width
}
