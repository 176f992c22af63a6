//! A sink in memory of which no call fails.
ghost use Rattle.std.specs.Prelude.{◌≡◌, ◌<◌, ◌≤◌, min, length, Some, IfOk, IsErrOf};
ghost use Rattle.std.specs.Io.KnownBytes.{WriteAppends};
ghost use Rattle.sz_io.specs.Rose.{Rose, DoNotFall};

use crate::{NoMemory, OutsideError, Sink};
use std::alloc::Global;

/// The room for the first bytes.
const FIRST_ROOM: usize = 64;

/// Takes at most `step` bytes a call, and keeps them.
pub struct SureSink {
    taken: Vec<u8>,
    step: usize,
    refusals: u64,
    ghost takes_some: { 1 ≤ step },
}

impl Drop for SureSink {
    fn drop(self) {
        let SureSink {
            taken: _,
            step: _,
            refusals: _,
        } = self;
    }
}

impl SureSink {
    ghost use Rattle.sz_io.specs.SureSink.{kept_bytes, IsUnused};

    /// An empty sink. It takes the memory of the first bytes.
    pub fn new(alloc: Global, step: usize) -> Result<SureSink, NoMemory>
        requires { 1 ≤ step }
        ensures ok { IfOk result (λ sink. IsUnused sink step) }
    {
        Ok(SureSink {
            taken: Vec::with_capacity(alloc, FIRST_ROOM)?,
            step,
            refusals: 0,
        })
    }

    /// The bytes taken so far.
    pub fn bytes(&self) -> &[u8]
        ensures value { result.now ≡ kept_bytes self.now }
    {
        &self.taken
    }
}

impl Sink for SureSink {
    ghost use Rattle.sz_io.specs.SureSink.{kept_bytes, times_refused, TakesByStep};

    ghost taken = { λ sink. Some (kept_bytes sink) };

    ghost faults = { λ _. 0 };

    ghost refusals = { times_refused };

    /// Takes the lesser of the step and the piece's length. Want of memory is its only refusal.
    fn write(&mut self, piece: &[u8]) -> Result<usize, OutsideError>
        ensures within { IfOk result (λ n. n ≤ length piece.now) }
        ensures some { IfOk result (λ n. 0 < length piece.now → 0 < n) }
        ensures bytes { WriteAppends (Some (kept_bytes self.old)) (Some (kept_bytes self.new)) result piece.now }
        ensures failed { IsErrOf result OutsideError.Failed → ⊥ }
        ensures refused { IsErrOf result OutsideError.NoMemory → Rose (times_refused self.old) (times_refused self.new) }
        ensures kept { DoNotFall (λ _. 0) times_refused self.old self.new }

        ensures step { TakesByStep self.old self.new piece.now result }
    {
        let count = self.step.min(piece.len());
        if self.taken.extend_from_slice(&piece[..count]).is_err() {
            self.refusals = self.refusals.saturating_add(1);
            return Err(OutsideError::NoMemory);
        }
        Ok(count)
    }
}
