//! Calls of the system that a signal may interrupt, and the count of their errors.
ghost use Rattle.std.specs.Prelude.{◌≡◌, ◌-◌, ◌^◌, ◌≤◌, true};
ghost use Rattle.sz_io.specs.Rose.{faults_after};

use crate::Failed;
use std::io;

/// How often a call is made that a signal interrupts each time.
pub const TRIES: u64 = 100;

/// How many errors there were. At 2^64 - 1 the count stays.
#[derive(Drop)]
pub struct Faults {
    count: u64,
    ghost fits: { count ≤ 2 ^ 64 - 1 },
}

impl Faults {
    pub fn none() -> Faults
        ensures none { result.count ≡ 0 }
    {
        Faults { count: 0 }
    }

    /// Counts an error. Unless a signal interrupted the call, it isn't made again.
    pub fn may_retry(&mut self, error: io::Error) -> Result<(), Failed>
        ensures count { self.new.count ≡ faults_after self.old.count true }
    {
        self.count = self.count.saturating_add(1);
        if error.kind() == io::ErrorKind::Interrupted {
            Ok(())
        } else {
            Err(Failed)
        }
    }
}
