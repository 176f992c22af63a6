//! Bytes that are written and synced.
ghost use Rattle.std.specs.Prelude.{◌≡◌, ◌+◌, ◌<◌, ◌≤◌, ◌^◌, ℕ, List, [], ◌∷◌, length, None, IfSome, IfOk, OnOk, IsErrOf, true};
ghost use Rattle.sz_io.specs.Rose.{Rose};
ghost use Rattle.sz_disk.specs.Crashes.{Torn, IsTheImage, are_told};
ghost use Rattle.sz_disk.specs.Calls.{overwrites};
ghost use Rattle.sz_disk.specs.Crashing.{Rests, LeavesOnly, DoesNotFall, WritesNothing};

use crate::Disk;
use sz_io::{Failed, OutsideError};

/// Syncs a disk, and tells its length.
pub fn settle<K: Disk>(disk: &mut K) -> Result<u64, OutsideError>
    ensures value { IfOk result (λ count. IfSome (K.bytes disk.new) (λ held. count ≡ length held)) }
    ensures synced { OnOk result (IfSome (K.bytes disk.new) (IsTheImage (K.may_leave disk.new))) }

    ensures failed { IsErrOf result OutsideError.Failed → Rose (K.faults disk.old) (K.faults disk.new) }

    ensures kept { WritesNothing K.bytes K.may_leave K.time K.left_since disk.old disk.new }
    ensures faults { DoesNotFall (K.faults disk.old) (K.faults disk.new) }
{
    sync(disk)?;
    match disk.length() {
        Ok(count) => Ok(count),
        Err(Failed) => Err(OutsideError::Failed),
    }
}

// A sync, whose failure is one of the outside.
pub(crate) fn sync<K: Disk>(disk: &mut K) -> Result<(), OutsideError>
    ensures synced { OnOk result (IfSome (K.bytes disk.new) (IsTheImage (K.may_leave disk.new))) }

    ensures failed { IsErrOf result OutsideError.Failed → Rose (K.faults disk.old) (K.faults disk.new) }

    ensures kept { WritesNothing K.bytes K.may_leave K.time K.left_since disk.old disk.new }
    ensures faults { DoesNotFall (K.faults disk.old) (K.faults disk.new) }
{
    match disk.sync() {
        Ok(()) => Ok(()),
        Err(Failed) => Err(OutsideError::Failed),
    }
}

// Writes bytes at a place, and syncs them. After an error they may be torn.
pub(crate) fn put<K: Disk>(disk: &mut K, at: u64, written: &[u8]) -> Result<(), OutsideError>
    requires { IfSome (K.bytes disk.old) (λ held. at ≤ length held) }

    ensures read { OnOk result (K.bytes disk.new ≡ overwrites at written.now (K.bytes disk.old)) }
    ensures synced { OnOk result (IfSome (K.bytes disk.new) (IsTheImage (K.may_leave disk.new))) }
    ensures within { OnOk result (at + length written.now < 2 ^ 63) }

    ensures leaves { (held : List ℕ) → Rests (K.bytes disk.old) (K.may_leave disk.old) held → are_told (K.may_leave disk.old) ≡ true
        → LeavesOnly K.time K.left_since disk.old disk.new (Torn (record { at = at; count = length written.now } ∷ []) held) }
    ensures told { are_told (K.may_leave disk.new) ≡ are_told (K.may_leave disk.old) }
    ensures untold { K.bytes disk.old ≡ None → K.bytes disk.new ≡ None }

    ensures failed { IsErrOf result OutsideError.Failed → Rose (K.faults disk.old) (K.faults disk.new) }

    ensures faults { DoesNotFall (K.faults disk.old) (K.faults disk.new) }
{
    disk.write_at(at, written)?;
    sync(disk)
}
