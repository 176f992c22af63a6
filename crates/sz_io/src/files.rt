//! Files that can be opened by name and read from their beginning.
ghost use Rattle.std.specs.Prelude.{◌≡◌, ◌<◌, ◌≤◌, ℕ, Bool, List, length, Option, IsTrue, IfOk, OnErr, IsErrOf};
ghost use Rattle.std.specs.Io.KnownBytes.{ReadConsumes};
ghost use Rattle.sz_io.specs.Rose.{Rose};
ghost use Rattle.sz_io.specs.Opened.{names_after, given_after, KeepsFiles, KeepsOtherFiles};

use crate::{Failed, OutsideError};

/// Files under names. The name `-` is standard input.
///
/// At most 128 files are opened. A file is read from its beginning, in pieces, and its bytes stay as they are.
pub trait Files {
    /// The bytes under a name, where they are told. No call changes them.
    ghost held: { Self → List ℕ → Option (List ℕ) };

    /// The bytes that are left of an opened file, by its number, where they are told.
    ghost left: { Self → ℕ → Option (List ℕ) };

    /// Whether `open_file` gave this number.
    ghost given: { Self → ℕ → Bool };

    /// The names opened, in the order of the calls.
    ghost names: { Self → List (List ℕ) };

    /// How many calls have failed. The count never falls, and at 2^64 - 1 it stays.
    ghost faults: { Self → ℕ };

    /// Opens a file and gives a number for it, which was not given before. A name that isn't there is a fault.
    fn open_file(&mut self, name: &str) -> Result<u32, OutsideError>
        requires { length (names self.old) < 128 }

        ensures fresh { IfOk result (λ file. IsTrue (given self.old file) → ⊥) }
        ensures bytes { IfOk result (λ file. left self.new file ≡ held self.old name.now) }
        ensures given { (file : ℕ) → given self.new file ≡ given_after (given self.old) result file }
        ensures names { names self.new ≡ names_after (names self.old) name.now result }

        ensures failed { IsErrOf result OutsideError.Failed → Rose (faults self.old) (faults self.new) }

        ensures kept { KeepsFiles held left given faults self.old self.new };

    /// Moves the next bytes of a file to the front of `into`, and tells how many: at least one, unless none is
    /// left or `into` is empty. After an error the file has as many bytes left as before.
    fn read(&mut self, file: u32, into: &mut [u8]) -> Result<usize, Failed>
        requires { IsTrue (given self.old file) }

        ensures within { IfOk result (λ n. n ≤ length into.new) }
        ensures bytes { ReadConsumes (left self.old file) (left self.new file) result into.new }

        ensures failed { OnErr result (Rose (faults self.old) (faults self.new)) }

        ensures kept { KeepsOtherFiles held left given names faults file self.old self.new };
}
