//! A sink in memory, whose calls fail where a list says so.
ghost use Rattle.std.specs.Prelude.{◌≡◌, ◌<◌, ◌≤◌, length, Some, IfOk, IsErrOf};
ghost use Rattle.std.specs.Io.KnownBytes.{WriteAppends};
ghost use Rattle.sz_io.specs.Rose.{Rose, DoNotFall};

use crate::{NoMemory, OutsideError, Sink, listed};
use std::alloc::Global;

/// Takes at most `step` bytes a call, and keeps them.
pub struct MemSink {
    taken: Vec<u8>,
    step: usize,
    fails: Vec<u64>,
    calls: u64,
    refusals: u64,
    ghost takes_some: { 1 ≤ step },
}

impl Drop for MemSink {
    fn drop(self) {
        let MemSink {
            taken: _,
            step: _,
            fails: _,
            calls: _,
            refusals: _,
        } = self;
    }
}

impl MemSink {
    ghost use Rattle.sz_io.specs.MemSink.{sink_bytes, IsNewSink};

    /// An empty sink. `fails` has the numbers of the calls that fail, counted from 0.
    pub fn new(alloc: Global, step: usize, fails: &[u64]) -> Result<MemSink, NoMemory>
        requires { 1 ≤ step }
        ensures ok { IfOk result (λ sink. IsNewSink sink step fails.now) }
    {
        Ok(MemSink {
            taken: Vec::new(alloc),
            step,
            fails: Vec::from_slice(alloc, fails)?,
            calls: 0,
            refusals: 0,
        })
    }

    /// The bytes taken so far.
    pub fn bytes(&self) -> &[u8]
        ensures value { result.now ≡ sink_bytes self.now }
    {
        &self.taken
    }
}

impl Sink for MemSink {
    ghost use Rattle.sz_io.specs.MemSink.{sink_bytes, sink_faults, sink_refusals, WritesByList};

    ghost taken = { λ sink. Some (sink_bytes sink) };

    ghost faults = { sink_faults };

    ghost refusals = { sink_refusals };

    /// Takes the lesser of the step and the piece's length. It fails exactly where the list has the call's number.
    #[tactic(auto, using(crate::proofs::ListedLemmas::listed_later, crate::proofs::ListedLemmas::listed_rises, crate::proofs::ListedLemmas::listed_stays))]
    fn write(&mut self, piece: &[u8]) -> Result<usize, OutsideError>
        ensures within { IfOk result (λ n. n ≤ length piece.now) }
        ensures some { IfOk result (λ n. 0 < length piece.now → 0 < n) }
        ensures bytes { WriteAppends (Some (sink_bytes self.old)) (Some (sink_bytes self.new)) result piece.now }
        ensures failed { IsErrOf result OutsideError.Failed → Rose (sink_faults self.old) (sink_faults self.new) }
        ensures refused { IsErrOf result OutsideError.NoMemory → Rose (sink_refusals self.old) (sink_refusals self.new) }
        ensures kept { DoNotFall sink_faults sink_refusals self.old self.new }

        ensures plan { WritesByList self.old self.new piece.now result }
    {
        let call = self.calls;
        self.calls = call.saturating_add(1);
        if listed::is_listed(&self.fails, call) {
            return Err(OutsideError::Failed);
        }
        let count = self.step.min(piece.len());
        if self.taken.extend_from_slice(&piece[..count]).is_err() {
            self.refusals = self.refusals.saturating_add(1);
            return Err(OutsideError::NoMemory);
        }
        Ok(count)
    }
}
