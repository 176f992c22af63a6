//! Opening a journal: its rounds are read, or it begins with the job.
ghost use Rattle.std.specs.Prelude.{◌≡◌, ℕ, List, [], ◌∷◌, length, None, IfOk, OnOk, IfSome, IsErrOf, Some, true};
ghost use Rattle.sz_io.specs.Rose.{Rose};
ghost use Rattle.sz_disk.specs.Crashes.{are_told};
ghost use Rattle.sz_disk.specs.Entries.{opened, IsEmpty, IsEmptyOrHolds};
ghost use Rattle.sz_disk.specs.Crashing.{Rests, LeavesOnly, DoesNotFall};
ghost use Rattle.sz_disk.specs.GateCalls.{Keeps};
ghost use Rattle.sz_journal.specs.Rounds.{AreRounds};
ghost use Rattle.sz_journal.specs.Journal.{rounds_of, end_gate, IsOf, KeepsRounds};
ghost use Rattle.sz_journal.specs.Kept.{tail_of, tail_in};
ghost use Rattle.sz_journal.specs.Opening.{FitsAnswer, IsKept};

use crate::error::OpenError;
use crate::reading::{has_job, read_rounds};
use crate::{JobBytes, Journal, Keeper, RoundEntries, Tail, write_job};
use std::alloc::Global;
use sz_disk::{Disk, begin, settle};
use sz_types::TableDecls;

/// Opens the journal of a job whose program declares these tables. An empty one begins with the job.
pub fn open_journal<K: Disk>(
    alloc: Global,
    disk: &mut K,
    job: &JobBytes,
    decls: &TableDecls,
) -> Result<Journal, OpenError>
    ensures causes { (held : List ℕ) → K.bytes disk.old ≡ Some held → FitsAnswer job.now decls.now held (tail_in result) }
    ensures ok { (held : List ℕ) → K.bytes disk.old ≡ Some held
        → IfOk result (λ journal. KeepsRounds (K.bytes disk.new) (K.may_leave disk.new) job.now decls.now (rounds_of (tail_of journal))) }
    ensures is_of { IfOk result (λ journal. IsOf job.now (tail_of journal)) }
    ensures are { IfOk result (λ journal. AreRounds job.now decls.now (rounds_of (tail_of journal))) }

    ensures leaves { (held : List ℕ) → K.bytes disk.old ≡ Some held → are_told (K.may_leave disk.old) ≡ true
        → LeavesOnly K.time K.left_since disk.old disk.new (IsKept job.now decls.now (K.may_leave disk.old) held) }
    ensures told { are_told (K.may_leave disk.new) ≡ are_told (K.may_leave disk.old) }
    ensures untold { K.bytes disk.old ≡ None → K.bytes disk.new ≡ None }

    ensures failed { IsErrOf result OpenError.Failed → Rose (K.faults disk.old) (K.faults disk.new) }

    ensures faults { DoesNotFall (K.faults disk.old) (K.faults disk.new) }
{
    let mut rounds = RoundEntries::new(alloc);
    match open_rounds(alloc, disk, job, decls, &mut rounds) {
        Ok(tail) => Ok(Journal::new(rounds, tail)),
        Err(error) => Err(error),
    }
}

/// The same where `keeper` gets the rounds, one after the other as they are read, and this gives where the journal ends.
pub fn open_rounds<K: Disk, S: Keeper>(
    alloc: Global,
    disk: &mut K,
    job: &JobBytes,
    decls: &TableDecls,
    keeper: &mut S,
) -> Result<Tail, OpenError>
    requires keeper { S.keeps keeper.old decls.now [] }

    ensures causes { (held : List ℕ) → K.bytes disk.old ≡ Some held → FitsAnswer job.now decls.now held result }
    ensures ok { (held : List ℕ) → K.bytes disk.old ≡ Some held
        → IfOk result (λ tail. KeepsRounds (K.bytes disk.new) (K.may_leave disk.new) job.now decls.now (rounds_of tail)) }
    ensures is_of { IfOk result (IsOf job.now) }
    ensures are { IfOk result (λ tail. AreRounds job.now decls.now (rounds_of tail)) }
    ensures keeper { IfOk result (λ tail. S.keeps keeper.new decls.now (rounds_of tail)) }

    ensures leaves { (held : List ℕ) → K.bytes disk.old ≡ Some held → are_told (K.may_leave disk.old) ≡ true
        → LeavesOnly K.time K.left_since disk.old disk.new (IsKept job.now decls.now (K.may_leave disk.old) held) }
    ensures told { are_told (K.may_leave disk.new) ≡ are_told (K.may_leave disk.old) }
    ensures untold { K.bytes disk.old ≡ None → K.bytes disk.new ≡ None }

    ensures failed { IsErrOf result OpenError.Failed → Rose (K.faults disk.old) (K.faults disk.new) }

    ensures faults { DoesNotFall (K.faults disk.old) (K.faults disk.new) }
{
    let entry = write_job(alloc, job)?;
    let count = settle(disk)?;
    if !has_job(alloc, disk, count, &entry)? {
        return start(alloc, disk, count, &entry);
    }
    read_rounds(alloc, disk, count, job, decls, entry.len() as u64, keeper)
}

// Begins the journal of the job with this entry, on a disk that holds none.
fn start<K: Disk>(alloc: Global, disk: &mut K, count: u64, entry: &[u8]) -> Result<Tail, OpenError>
    requires { IfSome (K.bytes disk.old) (λ held. count ≡ length held) }

    ensures rounds { IfOk result (λ tail. rounds_of tail ≡ []) }
    ensures end { IfOk result (λ tail. end_gate tail ≡ length (opened entry.now)) }
    ensures ok { (held : List ℕ) → Rests (K.bytes disk.old) (K.may_leave disk.old) held → IsEmpty held
        → OnOk result (Keeps (K.bytes disk.new) (K.may_leave disk.new) (entry.now ∷ [])) }

    ensures leaves { (held : List ℕ) → Rests (K.bytes disk.old) (K.may_leave disk.old) held → IsEmpty held → are_told (K.may_leave disk.old) ≡ true
        → LeavesOnly K.time K.left_since disk.old disk.new (IsEmptyOrHolds entry.now) }
    ensures told { are_told (K.may_leave disk.new) ≡ are_told (K.may_leave disk.old) }
    ensures untold { K.bytes disk.old ≡ None → K.bytes disk.new ≡ None }

    ensures other { IsErrOf result OpenError.OtherJob → ⊥ }
    ensures damaged { (place : ℕ) → IsErrOf result (OpenError.Damaged place) → ⊥ }
    ensures failed { IsErrOf result OpenError.Failed → Rose (K.faults disk.old) (K.faults disk.new) }

    ensures faults { DoesNotFall (K.faults disk.old) (K.faults disk.new) }
{
    let end = begin(alloc, disk, count, entry)?;
    Ok(Tail::new(alloc, end))
}
