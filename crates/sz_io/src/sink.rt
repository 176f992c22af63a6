//! A device that takes bytes.
ghost use Rattle.std.specs.Prelude.{◌<◌, ◌≤◌, ℕ, List, length, Option, IfOk, IsErrOf};
ghost use Rattle.std.specs.Io.KnownBytes.{WriteAppends};
ghost use Rattle.sz_io.specs.Rose.{Rose, DoNotFall};

use crate::OutsideError;

/// What takes bytes, in pieces.
pub trait Sink {
    /// The bytes taken so far, where they are told.
    ghost taken: { Self → Option (List ℕ) };

    /// How many calls have failed. The count never falls, and at 2^64 - 1 it stays.
    ghost faults: { Self → ℕ };

    /// How many calls have run out of memory. The count never falls, and at 2^64 - 1 it stays.
    ghost refusals: { Self → ℕ };

    /// Takes a prefix of the piece and tells its length: at least one byte, unless the piece is empty.
    /// After an error nothing of the piece was taken.
    fn write(&mut self, piece: &[u8]) -> Result<usize, OutsideError>
        ensures within { IfOk result (λ n. n ≤ length piece.now) }
        ensures some { IfOk result (λ n. 0 < length piece.now → 0 < n) }
        ensures bytes { WriteAppends (taken self.old) (taken self.new) result piece.now }

        ensures failed { IsErrOf result OutsideError.Failed → Rose (faults self.old) (faults self.new) }
        ensures refused { IsErrOf result OutsideError.NoMemory → Rose (refusals self.old) (refusals self.new) }

        ensures kept { DoNotFall faults refusals self.old self.new };
}
