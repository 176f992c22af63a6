//! An entry that is appended behind a gate.
ghost use Rattle.std.specs.Prelude.{◌≡◌, ◌+◌, ◌<◌, ◌-◌, ◌^◌, ℕ, List, [], ◌∷◌, ◌++◌, length, None, IfSome, IfOk, OnOk, IsErrOf, true};
ghost use Rattle.sz_io.specs.Rose.{Rose};
ghost use Rattle.sz_disk.specs.Crashes.{are_told};
ghost use Rattle.sz_disk.specs.Entries.{with_gate, opened, IsCounted, end_of, Holds, HoldsOneOf};
ghost use Rattle.sz_disk.specs.Crashing.{Rests, LeavesOnly, DoesNotFall};
ghost use Rattle.sz_disk.specs.GateCalls.{Keeps};
ghost use Rattle.sz_disk.specs.Gates.{IsBeforeOrBehind};

use crate::Disk;
use crate::put::put;
use std::alloc::{AllocError, Global};
use sz_io::OutsideError;

/// What an open gate is.
pub(crate) const OPEN: u8 = 1;

/// What a gate is that is written behind an entry.
pub(crate) const CLOSED: u8 = 0;

/// Appends an entry behind a closed gate, and gives the place of the gate behind the entry. A crash leaves the entries that there were, or
/// these and this one. After an error both may be.
pub fn append<K: Disk>(
    alloc: Global,
    disk: &mut K,
    gate: u64,
    entry: &[u8],
) -> Result<u64, OutsideError>
    requires here { IfSome (K.bytes disk.old) (λ held. gate < length held) }
    requires low { gate < 2 ^ 64 - 1 }

    ensures next { IfOk result (λ next. next ≡ gate + length (opened entry.now)) }
    ensures within { IfOk result (λ next. next < 2 ^ 63) }
    ensures ok { (entries : List (List ℕ)) (held : List ℕ) → K.bytes disk.old ≡ Some held → Holds entries held → gate ≡ end_of entries
        → OnOk result (Keeps (K.bytes disk.new) (K.may_leave disk.new) (entries ++ entry.now ∷ [])) }

    ensures leaves { (entries : List (List ℕ)) (held : List ℕ) → Rests (K.bytes disk.old) (K.may_leave disk.old) held → Holds entries held
        → gate ≡ end_of entries → are_told (K.may_leave disk.old) ≡ true
        → LeavesOnly K.time K.left_since disk.old disk.new (HoldsOneOf entries entry.now) }
    ensures told { are_told (K.may_leave disk.new) ≡ are_told (K.may_leave disk.old) }
    ensures untold { K.bytes disk.old ≡ None → K.bytes disk.new ≡ None }

    ensures failed { IsErrOf result OutsideError.Failed → Rose (K.faults disk.old) (K.faults disk.new) }

    ensures faults { DoesNotFall (K.faults disk.old) (K.faults disk.new) }
{
    let written = behind_gate(alloc, entry)?;
    open_gate(disk, gate, &written)?;
    Ok(gate + written.len() as u64)
}

// An entry behind its length, with a closed gate behind it.
fn behind_gate(alloc: Global, entry: &[u8]) -> Result<Vec<u8>, AllocError>
    ensures value { IfOk result (λ written. written.items ≡ with_gate entry.now) }
    ensures counted { OnOk result (IsCounted entry.now) }
{
    let mut written = Vec::new(alloc);
    written.extend_from_slice(&(entry.len() as u64).to_be_bytes())?;
    written.extend_from_slice(entry)?;
    written.push(CLOSED)?;
    Ok(written)
}

// Writes behind a gate, and opens the gate once that is synced. So a crash leaves the gate as it was, or all that was written behind it.
fn open_gate<K: Disk>(disk: &mut K, gate: u64, written: &[u8]) -> Result<(), OutsideError>
    requires here { IfSome (K.bytes disk.old) (λ held. gate < length held) }
    requires low { gate < 2 ^ 64 - 1 }

    ensures within { OnOk result (gate + 1 + length written.now < 2 ^ 63) }
    ensures ok { (front rest : List ℕ) (g : ℕ) → gate ≡ length front → K.bytes disk.old ≡ Some (front ++ g ∷ rest)
        → OnOk result ((behind : List ℕ) × Rests (K.bytes disk.new) (K.may_leave disk.new) (front ++ 1 ∷ (written.now ++ behind))) }

    ensures leaves { (front rest : List ℕ) (g : ℕ) → gate ≡ length front → Rests (K.bytes disk.old) (K.may_leave disk.old) (front ++ g ∷ rest)
        → are_told (K.may_leave disk.old) ≡ true
        → LeavesOnly K.time K.left_since disk.old disk.new (IsBeforeOrBehind front g written.now) }
    ensures told { are_told (K.may_leave disk.new) ≡ are_told (K.may_leave disk.old) }
    ensures untold { K.bytes disk.old ≡ None → K.bytes disk.new ≡ None }

    ensures failed { IsErrOf result OutsideError.Failed → Rose (K.faults disk.old) (K.faults disk.new) }

    ensures faults { DoesNotFall (K.faults disk.old) (K.faults disk.new) }
{
    put(disk, gate + 1, written)?;
    put(disk, gate, &[OPEN])
}
