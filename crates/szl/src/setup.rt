//! What a caller of the top call has: a stack, and a disk or none.
ghost use Rattle.std.specs.Prelude.{◌≡◌, ◌^◌, ◌-◌, None};
ghost use Rattle.sz_disk.specs.Crashes.{untold};

use crate::heights::Stack;
use sz_disk::Disk;
use sz_io::{Failed, OutsideError};

/// What the caller of the top call has.
#[derive(Clone, Copy, Debug)]
pub struct Setup {
    /// The stack. Where it isn't enough for the types of the program, that counts as want of memory: a caller has a small stack only where it got no
    /// memory for a large one.
    pub stack: Stack,
    /// Whether there is a disk. Without one no job is resumed, and the disk that is passed isn't called.
    pub has_disk: bool,
}

/// A disk that isn't there: each call fails, and none is made where no job is resumed.
#[derive(Clone, Copy, Debug)]
pub struct NoDisk;

impl Disk for NoDisk {
    ghost bytes = { λ _. None };

    ghost may_leave = { λ _. untold };

    ghost time = { λ _. 0 };

    ghost left_since = { λ _ _. untold };

    ghost faults = { λ _. 2 ^ 64 - 1 };

    ghost counts_now = { λ disk t image le now. tt };

    ghost read_may_stay = { λ disk held is. tt };

    ghost only_now = { λ disk. tt };

    fn length(&mut self) -> Result<u64, Failed> {
        Err(Failed)
    }

    fn read_at(&mut self, _at: u64, _into: &mut [u8]) -> Result<(), Failed> {
        Err(Failed)
    }

    fn write_at(&mut self, _at: u64, _written: &[u8]) -> Result<(), OutsideError> {
        Err(OutsideError::Failed)
    }

    fn sync(&mut self) -> Result<(), Failed> {
        Err(Failed)
    }
}
