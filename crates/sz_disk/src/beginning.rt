//! The first entry of a disk that holds none.
ghost use Rattle.std.specs.Prelude.{◌≡◌, ◌<◌, ◌^◌, ℕ, List, [], ◌∷◌, length, None, IfSome, IfOk, OnOk, IsErrOf, true};
ghost use Rattle.sz_io.specs.Rose.{Rose};
ghost use Rattle.sz_disk.specs.Crashes.{are_told};
ghost use Rattle.sz_disk.specs.Entries.{opened, IsEmpty, IsEmptyOrHolds};
ghost use Rattle.sz_disk.specs.Crashing.{Rests, LeavesOnly, DoesNotFall};
ghost use Rattle.sz_disk.specs.GateCalls.{Keeps};

use crate::Disk;
use crate::gate::{CLOSED, append};
use crate::put::put;
use std::alloc::Global;
use sz_io::OutsideError;

/// Makes this the only entry of a disk of `count` bytes that holds none. A crash leaves no entry, or this one.
pub fn begin<K: Disk>(
    alloc: Global,
    disk: &mut K,
    count: u64,
    entry: &[u8],
) -> Result<u64, OutsideError>
    requires { IfSome (K.bytes disk.old) (λ held. count ≡ length held) }

    ensures next { IfOk result (λ next. next ≡ length (opened entry.now)) }
    ensures within { IfOk result (λ next. next < 2 ^ 63) }
    ensures ok { (held : List ℕ) → Rests (K.bytes disk.old) (K.may_leave disk.old) held → IsEmpty held
        → OnOk result (Keeps (K.bytes disk.new) (K.may_leave disk.new) (entry.now ∷ [])) }

    ensures leaves { (held : List ℕ) → Rests (K.bytes disk.old) (K.may_leave disk.old) held → IsEmpty held → are_told (K.may_leave disk.old) ≡ true
        → LeavesOnly K.time K.left_since disk.old disk.new (IsEmptyOrHolds entry.now) }
    ensures told { are_told (K.may_leave disk.new) ≡ are_told (K.may_leave disk.old) }
    ensures untold { K.bytes disk.old ≡ None → K.bytes disk.new ≡ None }

    ensures failed { IsErrOf result OutsideError.Failed → Rose (K.faults disk.old) (K.faults disk.new) }

    ensures faults { DoesNotFall (K.faults disk.old) (K.faults disk.new) }
{
    close_first(disk, count)?;
    append(alloc, disk, 0, entry)
}

// Sees to a closed gate at place 0 of a disk of `count` bytes that holds no entry. In one of two bytes and more it is closed already.
fn close_first<K: Disk>(disk: &mut K, count: u64) -> Result<(), OutsideError>
    requires { IfSome (K.bytes disk.old) (λ held. count ≡ length held) }

    ensures here { OnOk result (IfSome (K.bytes disk.new) (λ held. 0 < length held)) }
    ensures ok { (held : List ℕ) → Rests (K.bytes disk.old) (K.may_leave disk.old) held → IsEmpty held
        → OnOk result (Keeps (K.bytes disk.new) (K.may_leave disk.new) []) }

    ensures leaves { (held : List ℕ) → Rests (K.bytes disk.old) (K.may_leave disk.old) held → IsEmpty held → are_told (K.may_leave disk.old) ≡ true
        → LeavesOnly K.time K.left_since disk.old disk.new IsEmpty }
    ensures told { are_told (K.may_leave disk.new) ≡ are_told (K.may_leave disk.old) }
    ensures untold { K.bytes disk.old ≡ None → K.bytes disk.new ≡ None }

    ensures failed { IsErrOf result OutsideError.Failed → Rose (K.faults disk.old) (K.faults disk.new) }

    ensures faults { DoesNotFall (K.faults disk.old) (K.faults disk.new) }
{
    if count > 1 {
        return Ok(());
    }
    put(disk, 0, &[CLOSED])
}
