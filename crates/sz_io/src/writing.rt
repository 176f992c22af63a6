//! A whole text to a sink.
ghost use Rattle.std.specs.Prelude.{◌≡◌, ◌<◌, ℕ, [], length, take, Err, IfErr, OnOk};
ghost use Rattle.std.specs.Io.KnownBytes.{Appends};
ghost use Rattle.sz_io.specs.Rose.{Rose, DoNotFall};
ghost use Rattle.sz_io.specs.Calls.{GainsLine, bytes_taken};

use crate::{OutsideError, Sink, WriteError};

/// Writes all the bytes, in as many calls as the sink wants, and none where there is no byte. After an error the
/// sink has a prefix of them, whose length the error tells.
#[tactic(auto, using(crate::proofs::Moves::took_more))]
pub fn write_whole<S: Sink>(sink: &mut S, bytes: &[u8]) -> Result<(), WriteError>
    ensures whole { OnOk result (Appends (S.taken sink.old) (S.taken sink.new) bytes.now) }
    ensures prefix { IfErr result (λ e. Appends (S.taken sink.old) (S.taken sink.new) (take (bytes_taken e) bytes.now)) }
    ensures within { IfErr result (λ e. bytes_taken e < length bytes.now) }

    ensures failed { (n : ℕ) → result ≡ Err (WriteError.Failed n) → Rose (S.faults sink.old) (S.faults sink.new) }
    ensures refused { (n : ℕ) → result ≡ Err (WriteError.NoMemory n) → Rose (S.refusals sink.old) (S.refusals sink.new) }

    ensures empty { bytes.now ≡ [] → sink.new ≡ sink.old }
    ensures kept { DoNotFall S.faults S.refusals sink.old sink.new }
{
    let mut done = 0;
    while done < bytes.len() {
        match sink.write(&bytes[done..]) {
            Ok(count) => done += count,
            Err(OutsideError::Failed) => return Err(WriteError::Failed(done)),
            Err(OutsideError::NoMemory) => return Err(WriteError::NoMemory(done)),
        }
    }
    Ok(())
}

/// Writes a line as far as the sink takes it, for a line that tells of a failure: one that can't be written changes nothing more.
pub fn write_line<S: Sink>(sink: &mut S, line: &[u8])
    ensures line { GainsLine S.Sink sink.old sink.new line.now }
    ensures empty { line.now ≡ [] → sink.new ≡ sink.old }
    ensures kept { DoNotFall S.faults S.refusals sink.old sink.new }
{
    let _ = write_whole(sink, line);
}
