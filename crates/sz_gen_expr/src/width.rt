//! Numbers that code holds in 32 bits.
ghost use Rattle.std.specs.Prelude.{◌≡◌, ◌≤◌, ◌^◌, IfOk, OnErr};

use crate::NoMemory;

/// A number for code. One of more than 32 bits counts as no memory, and nothing else does: no program has so many of anything.
pub fn small(number: usize) -> Result<u32, NoMemory>
    ensures value { IfOk result (λ made. made ≡ number) }
    ensures too_large { OnErr result (2 ^ 32 ≤ number) }
{
    match u32::try_from(number) {
        Ok(number) => Ok(number),
        Err(_) => Err(NoMemory),
    }
}
