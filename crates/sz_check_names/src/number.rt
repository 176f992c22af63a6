//! Numbers that fit the checked tree.
ghost use Rattle.std.specs.Prelude.{◌≡◌, ◌≤◌, ◌^◌, IfOk, OnErr};

use std::alloc::AllocError;

/// A number that stands in the checked tree. One of more than 32 bits counts as no memory, and nothing else does: no program has so
/// many of anything.
pub fn small(number: usize) -> Result<u32, AllocError>
    ensures value { IfOk result (λ made. made ≡ number) }
    ensures too_large { OnErr result (2 ^ 32 ≤ number) }
{
    match u32::try_from(number) {
        Ok(number) => Ok(number),
        Err(_) => Err(AllocError),
    }
}
