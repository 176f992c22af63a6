//! A sink over a real stream. Nothing is proved of what the stream keeps.
ghost use Rattle.std.specs.Prelude.{◌≡◌, ◌<◌, ◌≤◌, ℕ, length, None, IfOk, IsErrOf, is_err};
ghost use Rattle.std.specs.Io.KnownBytes.{WriteAppends};
ghost use Rattle.sz_io.specs.Rose.{Rose, DoNotFall, CountsErrors};

use crate::tries::{Faults, TRIES};
use crate::{Failed, OutsideError, Sink};
use std::io;
use std::io::Write;

/// Hands each piece to the stream at once, and holds nothing back. It never runs out of memory.
#[derive(Drop)]
pub struct OsSink<W: Write + Drop> {
    stream: W,
    faults: Faults,
}

impl<W: Write + Drop> OsSink<W> {
    ghost use Rattle.sz_io.specs.OsSink.{stream_faults};

    /// A sink over the stream.
    pub fn new(stream: W) -> OsSink<W>
        ensures no_fault { stream_faults result ≡ 0 }
    {
        OsSink {
            stream,
            faults: Faults::none(),
        }
    }
}

impl<W: Write + Drop> Sink for OsSink<W> {
    ghost use Rattle.sz_io.specs.OsSink.{stream_faults};

    ghost taken = { λ _. None };

    ghost faults = { stream_faults };

    ghost refusals = { λ _. 0 };

    /// Each error of the stream is a fault. A call that a signal interrupts is made up to 100 times.
    #[tactic(auto, using(crate::proofs::TryLemmas::of_both))]
    fn write(&mut self, piece: &[u8]) -> Result<usize, OutsideError>
        ensures within { IfOk result (λ n. n ≤ length piece.now) }
        ensures some { IfOk result (λ n. 0 < length piece.now → 0 < n) }
        ensures bytes { WriteAppends None None result piece.now }
        ensures failed { IsErrOf result OutsideError.Failed → Rose (stream_faults self.old) (stream_faults self.new) }
        ensures refused { IsErrOf result OutsideError.NoMemory → ⊥ }
        ensures kept { DoNotFall stream_faults (λ _. 0) self.old self.new }

        ensures count { CountsErrors 200 (stream_faults self.old) (stream_faults self.new) (is_err result) }
    {
        let count = write_some(&mut self.stream, &mut self.faults, piece)?;
        flush(&mut self.stream, &mut self.faults)?;
        Ok(count)
    }
}

/// Writes some of the piece.
#[tactic(auto, using(crate::proofs::TryLemmas::one_more))]
fn write_some<W: Write>(stream: &mut W, faults: &mut Faults, piece: &[u8]) -> Result<usize, Failed>
    ensures within { IfOk result (λ n. n ≤ length piece.now) }
    ensures some { IfOk result (λ n. 0 < length piece.now → 0 < n) }
    ensures count { CountsErrors 100 faults.old.count faults.new.count (is_err result) }
{
    'tries: for _ in 0..TRIES {
        match stream.write(piece) {
            Ok(0) if !piece.is_empty() => faults.may_retry(io::ErrorKind::WriteZero.into())?,
            Ok(count) => return Ok(count),
            Err(error) => faults.may_retry(error)?,
        }
    }
    Err(Failed)
}

/// Lets the stream pass on what it holds.
#[tactic(auto, using(crate::proofs::TryLemmas::one_more))]
fn flush<W: Write>(stream: &mut W, faults: &mut Faults) -> Result<(), Failed>
    ensures count { CountsErrors 100 faults.old.count faults.new.count (is_err result) }
{
    'tries: for _ in 0..TRIES {
        match stream.flush() {
            Ok(()) => return Ok(()),
            Err(error) => faults.may_retry(error)?,
        }
    }
    Err(Failed)
}
