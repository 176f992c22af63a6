//! What a journal holds before it is opened.
ghost use Rattle.std.specs.Prelude.{◌≡◌, ◌↔◌, ◌+◌, ◌<◌, ◌-◌, ◌^◌, ℕ, List, [], length, IfOk, OnOk, IfSome, IsErrOf, IsTrue, Some, true};
ghost use Rattle.sz_types.specs.Tables.{Declaration};
ghost use Rattle.sz_io.specs.Rose.{Rose};
ghost use Rattle.sz_disk.specs.Entries.{opened};
ghost use Rattle.sz_disk.specs.Crashing.{DoesNotFall, WritesNothing};
ghost use Rattle.sz_journal.specs.Jobs.{job_bytes};
ghost use Rattle.sz_journal.specs.Rounds.{AreRounds};
ghost use Rattle.sz_journal.specs.declared.job.JobBytes as jobs;
ghost use Rattle.sz_journal.specs.Journal.{rounds_of, end_gate, IsOf};
ghost use Rattle.sz_journal.specs.Reading.{FitsRefused, FitsFirst, FitsTaken, IsAt, FitsTurn, FitsRead, IsReadTo};

use crate::error::OpenError;
use crate::following::can_follow;
use crate::tail::FRONT_BYTES;
use crate::{EntryError, JobBytes, Keeper, Tail, read_job, read_round};
use std::alloc::Global;
use sz_disk::{AtGate, Disk, read_gate};
use sz_types::TableDecls;

// Whether a disk of `count` bytes begins with `own`, the entry of the job; false where the disk holds no entry.
pub(crate) fn has_job<K: Disk>(
    alloc: Global,
    disk: &mut K,
    count: u64,
    own: &[u8],
) -> Result<bool, OpenError>
    requires all { IfSome (K.bytes disk.old) (λ held. count ≡ length held) }

    ensures value { (job : jobs.JobBytes) (decls : List Declaration) (held : List ℕ) → own.now ≡ job_bytes job → K.bytes disk.old ≡ Some held
        → FitsFirst job decls held result }
    ensures within { IfOk result (λ has. has ≡ true → length (opened own.now) < count) }

    ensures failed { IsErrOf result OpenError.Failed → Rose (K.faults disk.old) (K.faults disk.new) }

    ensures kept { WritesNothing K.bytes K.may_leave K.time K.left_since disk.old disk.new }
    ensures faults { DoesNotFall (K.faults disk.old) (K.faults disk.new) }
{
    if count < 2 {
        return Ok(false);
    }
    match read_gate(alloc, disk, count, 0)? {
        AtGate::Closed => Ok(false),
        AtGate::Cut => Err(OpenError::Damaged(0)),
        AtGate::Ending(first) => Err(refused(alloc, own, &first)),
        AtGate::Entry(first) => {
            if is_same(&first, own) {
                return Ok(true);
            }
            Err(refused(alloc, own, &first))
        }
    }
}

// Whether bytes are the same.
fn is_same(one: &[u8], other: &[u8]) -> bool
    ensures value { IsTrue result ↔ (one.now ≡ other.now) }
{
    one == other
}

// What a first entry is that isn't the job's own, or has no gate behind it.
fn refused(alloc: Global, own: &[u8], first: &[u8]) -> OpenError
    ensures value { FitsRefused own.now first.now result }
{
    if is_same(first, own) {
        return OpenError::Damaged(0);
    }
    match read_job(alloc, first) {
        Ok(_) => OpenError::OtherJob,
        Err(EntryError::NotEntry) => OpenError::Damaged(0),
        Err(EntryError::NoMemory) => OpenError::NoMemory,
    }
}

// Reads the rounds behind the entry of the job, which has `size` bytes, from a disk of `count` bytes.
pub(crate) fn read_rounds<K: Disk, S: Keeper>(
    alloc: Global,
    disk: &mut K,
    count: u64,
    job: &JobBytes,
    decls: &TableDecls,
    size: u64,
    keeper: &mut S,
) -> Result<Tail, OpenError>
    requires all { IfSome (K.bytes disk.old) (λ held. count ≡ length held) }
    requires first { (held : List ℕ) → K.bytes disk.old ≡ Some held → IsReadTo job.now [] held }
    requires of_job { size ≡ length (job_bytes job.now) }
    requires here { 9 + size < count }
    requires keeper { S.keeps keeper.old decls.now [] }

    ensures value { (held : List ℕ) → K.bytes disk.old ≡ Some held → FitsRead job.now decls.now held result }
    ensures is_of { IfOk result (IsOf job.now) }
    ensures are { IfOk result (λ tail. AreRounds job.now decls.now (rounds_of tail)) }
    ensures keeper { IfOk result (λ tail. S.keeps keeper.new decls.now (rounds_of tail)) }

    ensures failed { IsErrOf result OpenError.Failed → Rose (K.faults disk.old) (K.faults disk.new) }

    ensures kept { WritesNothing K.bytes K.may_leave K.time K.left_since disk.old disk.new }
    ensures faults { DoesNotFall (K.faults disk.old) (K.faults disk.new) }
{
    let mut tail = Tail::new(alloc, FRONT_BYTES + size);
    while read_next(alloc, disk, count, job, decls, &mut tail, keeper)? {}
    Ok(tail)
}

// Reads a further round, if the gate behind the last one is open.
fn read_next<K: Disk, S: Keeper>(
    alloc: Global,
    disk: &mut K,
    count: u64,
    job: &JobBytes,
    decls: &TableDecls,
    tail: &mut Tail,
    keeper: &mut S,
) -> Result<bool, OpenError>
    requires all { IfSome (K.bytes disk.old) (λ held. count ≡ length held) }
    requires at { IsAt job.now decls.now tail.old (K.bytes disk.old) count }
    requires keeper { S.keeps keeper.old decls.now (rounds_of tail.old) }

    ensures value { FitsTurn job.now decls.now (K.bytes disk.old) count tail.old tail.new result }
    ensures keeper { IfOk result (λ _. S.keeps keeper.new decls.now (rounds_of tail.new)) }

    ensures failed { IsErrOf result OpenError.Failed → Rose (K.faults disk.old) (K.faults disk.new) }

    ensures kept { WritesNothing K.bytes K.may_leave K.time K.left_since disk.old disk.new }
    ensures faults { DoesNotFall (K.faults disk.old) (K.faults disk.new) }
{
    let gate = tail.end();
    match read_gate(alloc, disk, count, gate)? {
        AtGate::Closed => Ok(false),
        AtGate::Ending(_) => Err(OpenError::Damaged(gate)),
        AtGate::Cut => Err(OpenError::Damaged(gate)),
        AtGate::Entry(entry) => {
            take_round(alloc, job, decls, tail, keeper, &entry)?;
            Ok(true)
        }
    }
}

// Takes over the round whose entry was read at the end of the journal, if it may be the next one.
fn take_round<S: Keeper>(
    alloc: Global,
    job: &JobBytes,
    decls: &TableDecls,
    tail: &mut Tail,
    keeper: &mut S,
    entry: &[u8],
) -> Result<(), OpenError>
    requires are { AreRounds job.now decls.now (rounds_of tail.old) }
    requires low { end_gate tail.old + length (opened entry.now) < 2 ^ 64 - 1 }
    requires keeper { S.keeps keeper.old decls.now (rounds_of tail.old) }

    ensures value { FitsTaken job.now decls.now tail.old tail.new entry.now result }
    ensures keeper { OnOk result (S.keeps keeper.new decls.now (rounds_of tail.new)) }
{
    let gate = tail.end();
    // its type has 32 bits, and no round passes over more
    let _most_passed = job.skip;
    match read_round(alloc, entry) {
        Ok(round) => {
            if !can_follow(job, decls, tail.progress(), &round) {
                return Err(OpenError::Damaged(gate));
            }
            tail.take(&round, entry.len() as u64);
            keeper.keep(round)?;
            Ok(())
        }
        Err(EntryError::NotEntry) => Err(OpenError::Damaged(gate)),
        Err(EntryError::NoMemory) => Err(OpenError::NoMemory),
    }
}
