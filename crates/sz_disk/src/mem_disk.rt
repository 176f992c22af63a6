//! A disk in memory, whose calls fail where a list says so, and which can be made to crash.
ghost use Rattle.std.specs.Prelude.{◌≡◌, ◌+◌, ◌-◌, ◌≤◌, ◌^◌, min, ℕ, nat_eq, [], ◌∷◌, Some, length, take, drop};
ghost use Rattle.std.specs.Prelude.{IfOk, OnOk, OnErr, IfSome, IsErrOf, is_err};
ghost use Rattle.std.specs.List.{list_any};
ghost use Rattle.std.proofs.Common.{inl};
ghost use Rattle.sz_io.specs.Rose.{Rose, faults_after};
ghost use Rattle.sz_disk.specs.Crashes.{Torn, told, IsTheImage};
ghost use Rattle.sz_disk.specs.Calls.{overwritten, overwrites, IsTorn, MayTear, NoMore};
ghost use Rattle.sz_disk.specs.Stretches.{LeftBy, at_hand, and_also, still_left, only_this_moment};

use crate::record::Record;
use crate::{Disk, Span};
use std::alloc::{AllocError, Global};
use sz_io::{Failed, NoMemory, OutsideError};

/// The end of a write is below this, as that of a file is.
const END: u64 = 1 << 63;

/// Bytes in memory, with a record of what was written.
pub struct MemDisk {
    alloc: Global,
    bytes: Vec<u8>,
    kept: Record,
    fails: Vec<u64>,
    calls: u64,
    faults: u64,
    ghost read_may_stay: { LeftBy (at_hand kept bytes.items) bytes.items },
}

impl Drop for MemDisk {
    fn drop(self) {
        let MemDisk {
            alloc: _,
            bytes: _,
            kept: _,
            fails: _,
            calls: _,
            faults: _,
        } = self;
    }
}

impl MemDisk {
    ghost use Rattle.sz_disk.specs.MemDisk.{disk_bytes, DiskLeaves, IsNewDisk};

    /// A disk that holds these bytes, synced. `fails` has the numbers of the calls that fail, counted from 0.
    pub fn new(alloc: Global, bytes: &[u8], fails: &[u64]) -> Result<MemDisk, NoMemory>
        ensures ok { IfOk result (λ disk. IsNewDisk disk bytes.now fails.now) }
    {
        Ok(MemDisk {
            alloc,
            bytes: Vec::from_slice(alloc, bytes)?,
            kept: Record::new(alloc, bytes)?,
            fails: Vec::from_slice(alloc, fails)?,
            calls: 0,
            faults: 0,
        })
    }

    /// The bytes that a read gives.
    pub fn bytes(&self) -> &[u8]
        ensures value { result.now ≡ disk_bytes self.now }
    {
        &self.bytes
    }

    /// What the disk is after a crash: an image that the crash may leave, chosen by a number, on a disk that nobody called and of
    /// which no call is to fail.
    pub fn crash(self, pick: u64) -> MemDisk
        ensures image { DiskLeaves self (disk_bytes result) }
        ensures fresh { IsNewDisk result (disk_bytes result) [] }
    {
        let MemDisk {
            alloc,
            mut bytes,
            mut kept,
            mut fails,
            calls: _,
            faults: _,
        } = self;
        kept.crash(&mut bytes, pick);
        fails.clear();
        MemDisk {
            alloc,
            bytes,
            kept,
            fails,
            calls: 0,
            faults: 0,
        }
    }
}

impl MemDisk {
    ghost use Rattle.sz_disk.specs.MemDisk.{disk_bytes, disk_calls, disk_faults, disk_fails, writes_since, has_failed, WritesSpan};

    /// Notes a write and writes, or fails and writes the first half alone.
    fn write(&mut self, at: usize, written: &[u8], fails: bool) -> Result<(), OutsideError>
        requires { at ≤ length (disk_bytes self.old) }

        ensures ok { OnOk result (disk_bytes self.new ≡ overwritten at written.now (disk_bytes self.old)) }
        ensures torn { Torn (record { at = at; count = length written.now } ∷ []) (disk_bytes self.old) (disk_bytes self.new) }
        ensures failed { has_failed result ≡ fails }

        ensures writes { OnOk result (writes_since self.new ≡ and_also (writes_since self.old) (record { at = at; count = length written.now })) }
        ensures noted { WritesSpan self.old self.new (record { at = at; count = length written.now }) }
        ensures calls { disk_calls self.new ≡ disk_calls self.old }
        ensures faults { disk_faults self.new ≡ disk_faults self.old }
        ensures fails { disk_fails self.new ≡ disk_fails self.old }
    {
        let span = Span {
            at,
            count: written.len(),
        };
        let noted = self.kept.note(self.alloc, &self.bytes, span);
        if fails {
            if noted.is_ok() {
                let half = &written[..written.len() / 2];
                let _ = overwrite(self.alloc, &mut self.bytes, at, half);
            }
            return Err(OutsideError::Failed);
        }
        noted?;
        overwrite(self.alloc, &mut self.bytes, at, written)?;
        Ok(())
    }
}

/// Whether a list has the number of a call.
fn is_listed(fails: &[u64], call: u64) -> bool
    ensures { result ≡ list_any (λ k. nat_eq k call) fails.now }
{
    fails.contains(&call)
}

/// Counts a call, and a fault where it is to fail.
fn count_call(calls: &mut u64, faults: &mut u64, fails: bool)
    ensures call { calls.new ≡ min (calls.old + 1) (2 ^ 64 - 1) }
    ensures fault { faults.new ≡ faults_after faults.old fails }
    ensures later { faults.old ≤ faults.new }
    ensures stays { faults.old ≡ 2 ^ 64 - 1 → faults.new ≡ 2 ^ 64 - 1 }
{
    *calls = calls.saturating_add(1);
    if fails {
        *faults = faults.saturating_add(1);
    }
}

/// A copy of the bytes with others in the place of those from a place on.
fn copy_with(alloc: Global, bytes: &[u8], at: usize, written: &[u8]) -> Result<Vec<u8>, AllocError>
    requires { at ≤ length bytes.now }
    ensures { IfOk result (λ next. next.items ≡ overwritten at written.now bytes.now) }
{
    let mut next = bytes[..at].to_vec(alloc)?;
    next.extend_from_slice(written)?;
    if written.len() < bytes.len() - at {
        next.extend_from_slice(&bytes[at + written.len()..])?;
    }
    Ok(next)
}

/// Puts bytes in the place of those from a place on. Without memory the bytes stay as they were.
#[tactic(auto, using(crate::proofs::NotedLemmas::torn_by, crate::proofs::TornLemmas::torn_overwritten, crate::proofs::TornLemmas::torn_refl))]
fn overwrite(
    alloc: Global,
    bytes: &mut Vec<u8>,
    at: usize,
    written: &[u8],
) -> Result<(), AllocError>
    requires { at ≤ length bytes.old.items }
    ensures ok { OnOk result (bytes.new.items ≡ overwritten at written.now bytes.old.items) }
    ensures err { OnErr result (bytes.new.items ≡ bytes.old.items) }
    ensures torn { (count : ℕ) → length written.now ≤ count → Torn (record { at = at; count = count } ∷ []) bytes.old.items bytes.new.items }
{
    let next = copy_with(alloc, bytes, at, written)?;
    *bytes = next;
    Ok(())
}

impl Disk for MemDisk {
    ghost use Rattle.sz_disk.specs.MemDisk.{disk_bytes, disk_time, disk_faults, writes_since, ended_stretches};
    ghost use Rattle.sz_disk.specs.MemDisk.{DiskLeaves, DiskLeft, DiskGoesOn, CountsCall, is_next_listed, write_is_to_fail, has_failed};

    ghost bytes = { λ disk. Some (disk_bytes disk) };

    ghost may_leave = { λ disk. told (DiskLeaves disk) };

    ghost time = { disk_time };

    ghost left_since = { λ disk t. told (DiskLeft disk t) };

    ghost faults = { disk_faults };

    ghost counts_now = { λ disk t image le now. inl now };

    ghost read_may_stay = { λ disk held is. still_left (writes_since disk) is disk.read_may_stay };

    ghost only_now = { λ disk image left. only_this_moment (ended_stretches disk) (writes_since disk) image left };

    /// Fails exactly where the list has the number of the call, as each call but a write.
    fn length(&mut self) -> Result<u64, Failed>
        ensures value { IfOk result (λ count. IfSome (Some (disk_bytes self.old)) (λ held. count ≡ length held)) }
        ensures failed { OnErr result (Rose (disk_faults self.old) (disk_faults self.new)) }
        ensures same { Some (disk_bytes self.new) ≡ Some (disk_bytes self.old) }
        ensures no_more { NoMore (told (DiskLeaves self.old)) (told (DiskLeaves self.new)) }
        ensures kept { DiskGoesOn self.old self.new }

        ensures plan { CountsCall self.old self.new (is_err result) × (is_err result ≡ is_next_listed self.old) }
        ensures writes { writes_since self.new ≡ writes_since self.old }
    {
        let fails = is_listed(&self.fails, self.calls);
        count_call(&mut self.calls, &mut self.faults, fails);
        if fails {
            return Err(Failed);
        }
        Ok(self.bytes.len() as u64)
    }

    /// Fails exactly where the list has the number of the call.
    fn read_at(&mut self, at: u64, into: &mut [u8]) -> Result<(), Failed>
        requires { IfSome (Some (disk_bytes self.old)) (λ held. at + length into.old ≤ length held) }
        ensures value { OnOk result (IfSome (Some (disk_bytes self.old)) (λ held. into.new ≡ take (length into.old) (drop at held))) }
        ensures failed { OnErr result (Rose (disk_faults self.old) (disk_faults self.new)) }
        ensures same { Some (disk_bytes self.new) ≡ Some (disk_bytes self.old) }
        ensures no_more { NoMore (told (DiskLeaves self.old)) (told (DiskLeaves self.new)) }
        ensures kept { DiskGoesOn self.old self.new }

        ensures plan { CountsCall self.old self.new (is_err result) × (is_err result ≡ is_next_listed self.old) }
        ensures writes { writes_since self.new ≡ writes_since self.old }
    {
        let fails = is_listed(&self.fails, self.calls);
        count_call(&mut self.calls, &mut self.faults, fails);
        if fails {
            return Err(Failed);
        }
        let at = at as usize;
        into.copy_from_slice(&self.bytes[at..at + into.len()]);
        Ok(())
    }

    /// Fails exactly where the list has the number of the call, or the write's end isn't below 2^63. A write that fails by the list
    /// has written the first half of the bytes, where there was memory.
    fn write_at(&mut self, at: u64, written: &[u8]) -> Result<(), OutsideError>
        requires { IfSome (Some (disk_bytes self.old)) (λ held. at ≤ length held) }
        ensures value { OnOk result (Some (disk_bytes self.new) ≡ overwrites at written.now (Some (disk_bytes self.old))) }
        ensures torn { OnErr result (IsTorn (record { at = at; count = length written.now }) (Some (disk_bytes self.old)) (Some (disk_bytes self.new))) }
        ensures failed { IsErrOf result OutsideError.Failed → Rose (disk_faults self.old) (disk_faults self.new) }
        ensures too_far { 2 ^ 63 ≤ at + length written.now → IsErrOf result OutsideError.Failed }
        ensures too_far_same { 2 ^ 63 ≤ at + length written.now → Some (disk_bytes self.new) ≡ Some (disk_bytes self.old) }
        ensures too_far_no_more { 2 ^ 63 ≤ at + length written.now → NoMore (told (DiskLeaves self.old)) (told (DiskLeaves self.new)) }
        ensures crash { MayTear (record { at = at; count = length written.now }) (told (DiskLeaves self.old)) (told (DiskLeaves self.new)) }
        ensures kept { DiskGoesOn self.old self.new }

        ensures plan { CountsCall self.old self.new (has_failed result) × (has_failed result ≡ write_is_to_fail self.old at written.now) }
        ensures writes { OnOk result (writes_since self.new ≡ and_also (writes_since self.old) (record { at = at; count = length written.now })) }
    {
        let at = at as usize;
        let is_far = written.len() as u64 >= END - at as u64;
        let fails = is_listed(&self.fails, self.calls) || is_far;
        count_call(&mut self.calls, &mut self.faults, fails);
        if is_far {
            return Err(OutsideError::Failed);
        }
        self.write(at, written, fails)
    }

    /// Fails exactly where the list has the number of the call.
    fn sync(&mut self) -> Result<(), Failed>
        ensures synced { OnOk result (IfSome (Some (disk_bytes self.old)) (IsTheImage (told (DiskLeaves self.new)))) }
        ensures failed { OnErr result (Rose (disk_faults self.old) (disk_faults self.new)) }
        ensures same { Some (disk_bytes self.new) ≡ Some (disk_bytes self.old) }
        ensures no_more { NoMore (told (DiskLeaves self.old)) (told (DiskLeaves self.new)) }
        ensures kept { DiskGoesOn self.old self.new }

        ensures plan { CountsCall self.old self.new (is_err result) × (is_err result ≡ is_next_listed self.old) }
        ensures writes { OnOk result (writes_since self.new ≡ record { synced = disk_bytes self.old; spans = [] }) }
        ensures lost { OnErr result (writes_since self.new ≡ writes_since self.old) }
    {
        let fails = is_listed(&self.fails, self.calls);
        count_call(&mut self.calls, &mut self.faults, fails);
        if !fails {
            self.kept.sync();
            return Ok(());
        }
        Err(Failed)
    }
}
