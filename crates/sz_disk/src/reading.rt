//! What stands at a gate.
ghost use Rattle.std.specs.Prelude.{◌≡◌, ◌+◌, ◌<◌, ◌≤◌, ◌^◌, ◌∷◌, length, take, drop, IfSome, IfOk, OnOk, IsErrOf};
ghost use Rattle.sz_io.specs.Rose.{Rose};
ghost use Rattle.sz_disk.specs.Entries.{count_bytes};
ghost use Rattle.sz_disk.specs.Crashing.{DoesNotFall, WritesNothing};
ghost use Rattle.sz_disk.specs.GateCalls.{StandsAt, IsWithin};

use crate::Disk;
use crate::gate::OPEN;
use std::alloc::Global;
use sz_io::{Failed, OutsideError};

/// How many bytes the length of an entry has.
const LENGTH_BYTES: u64 = 8;

/// What stands at a gate.
#[derive(Debug, Drop)]
pub enum AtGate {
    /// The gate isn't open.
    Closed,
    /// The gate is open, and behind it stand this entry and the next gate.
    Entry(Vec<u8>),
    /// The gate is open, and behind it stands this entry, with which the disk ends.
    Ending(Vec<u8>),
    /// The gate is open, and behind it no entry is whole.
    Cut,
}

/// Reads what stands at a gate of a disk of `count` bytes. It takes no more memory than the disk is long, whatever a length there says.
pub fn read_gate<K: Disk>(
    alloc: Global,
    disk: &mut K,
    count: u64,
    gate: u64,
) -> Result<AtGate, OutsideError>
    requires all { IfSome (K.bytes disk.old) (λ held. count ≡ length held) }
    requires here { gate < count }

    ensures value { IfOk result (λ found. IfSome (K.bytes disk.old) (λ held. StandsAt (drop gate held) found)) }
    ensures within { IfOk result (IsWithin count gate) }

    ensures failed { IsErrOf result OutsideError.Failed → Rose (K.faults disk.old) (K.faults disk.new) }

    ensures kept { WritesNothing K.bytes K.may_leave K.time K.left_since disk.old disk.new }
    ensures faults { DoesNotFall (K.faults disk.old) (K.faults disk.new) }
{
    if read_byte(disk, gate)? != OPEN {
        return Ok(AtGate::Closed);
    }
    read_entry(alloc, disk, count, gate)
}

// Reads what stands behind an open gate.
fn read_entry<K: Disk>(
    alloc: Global,
    disk: &mut K,
    count: u64,
    gate: u64,
) -> Result<AtGate, OutsideError>
    requires all { IfSome (K.bytes disk.old) (λ held. count ≡ length held) }
    requires here { gate < count }

    ensures value { IfOk result (λ found. IfSome (K.bytes disk.old) (λ held. StandsAt (1 ∷ drop (gate + 1) held) found)) }
    ensures within { IfOk result (IsWithin count gate) }

    ensures failed { IsErrOf result OutsideError.Failed → Rose (K.faults disk.old) (K.faults disk.new) }

    ensures kept { WritesNothing K.bytes K.may_leave K.time K.left_since disk.old disk.new }
    ensures faults { DoesNotFall (K.faults disk.old) (K.faults disk.new) }
{
    let behind = count - gate - 1;
    if behind < LENGTH_BYTES {
        return Ok(AtGate::Cut);
    }
    let length = read_length(disk, gate + 1)?;
    let room = behind - LENGTH_BYTES;
    if length > room {
        return Ok(AtGate::Cut);
    }
    let entry = read_bytes(alloc, disk, gate + 1 + LENGTH_BYTES, length)?;
    if length == room {
        return Ok(AtGate::Ending(entry));
    }
    Ok(AtGate::Entry(entry))
}

// The byte at a place.
fn read_byte<K: Disk>(disk: &mut K, at: u64) -> Result<u8, OutsideError>
    requires { IfSome (K.bytes disk.old) (λ held. at + 1 ≤ length held) }

    ensures value { IfOk result (λ byte. IfSome (K.bytes disk.old) (λ held. drop at held ≡ byte ∷ drop (at + 1) held)) }

    ensures failed { IsErrOf result OutsideError.Failed → Rose (K.faults disk.old) (K.faults disk.new) }

    ensures kept { WritesNothing K.bytes K.may_leave K.time K.left_since disk.old disk.new }
    ensures faults { DoesNotFall (K.faults disk.old) (K.faults disk.new) }
{
    let mut byte = [0; 1];
    fill(disk, at, &mut byte)?;
    Ok(byte[0])
}

// The length in 8 bytes from a place on.
fn read_length<K: Disk>(disk: &mut K, at: u64) -> Result<u64, OutsideError>
    requires { IfSome (K.bytes disk.old) (λ held. at + 8 ≤ length held) }

    ensures value { IfOk result (λ n. IfSome (K.bytes disk.old) (λ held. count_bytes n ≡ take 8 (drop at held))) }
    ensures small { IfOk result (λ n. n < 2 ^ 64) }

    ensures failed { IsErrOf result OutsideError.Failed → Rose (K.faults disk.old) (K.faults disk.new) }

    ensures kept { WritesNothing K.bytes K.may_leave K.time K.left_since disk.old disk.new }
    ensures faults { DoesNotFall (K.faults disk.old) (K.faults disk.new) }
{
    let mut bytes = [0; 8];
    fill(disk, at, &mut bytes)?;
    Ok(length_of(&bytes))
}

// The length that 8 bytes are.
fn length_of(bytes: &[u8]) -> u64
    requires { length bytes.now ≡ 8 }
    ensures value { count_bytes result ≡ take 8 bytes.now }
{
    u64::from_be_bytes([
        bytes[0], bytes[1], bytes[2], bytes[3], bytes[4], bytes[5], bytes[6], bytes[7],
    ])
}

// So many bytes from a place on.
fn read_bytes<K: Disk>(
    alloc: Global,
    disk: &mut K,
    at: u64,
    count: u64,
) -> Result<Vec<u8>, OutsideError>
    requires { IfSome (K.bytes disk.old) (λ held. at + count ≤ length held) }

    ensures value { IfOk result (λ bytes. IfSome (K.bytes disk.old) (λ held. bytes.items ≡ take count (drop at held))) }
    ensures long { IfOk result (λ bytes. length bytes.items ≡ count) }

    ensures failed { IsErrOf result OutsideError.Failed → Rose (K.faults disk.old) (K.faults disk.new) }

    ensures kept { WritesNothing K.bytes K.may_leave K.time K.left_since disk.old disk.new }
    ensures faults { DoesNotFall (K.faults disk.old) (K.faults disk.new) }
{
    let mut bytes = vec![in alloc; 0; count as usize]?;
    fill(disk, at, &mut bytes)?;
    Ok(bytes)
}

// Fills a piece of memory from a place on.
fn fill<K: Disk>(disk: &mut K, at: u64, into: &mut [u8]) -> Result<(), OutsideError>
    requires { IfSome (K.bytes disk.old) (λ held. at + length into.old ≤ length held) }

    ensures value { OnOk result (IfSome (K.bytes disk.old) (λ held. into.new ≡ take (length into.old) (drop at held))) }

    ensures failed { IsErrOf result OutsideError.Failed → Rose (K.faults disk.old) (K.faults disk.new) }

    ensures kept { WritesNothing K.bytes K.may_leave K.time K.left_since disk.old disk.new }
    ensures faults { DoesNotFall (K.faults disk.old) (K.faults disk.new) }
{
    match disk.read_at(at, into) {
        Ok(()) => Ok(()),
        Err(Failed) => Err(OutsideError::Failed),
    }
}
