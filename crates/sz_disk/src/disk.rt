//! A disk: bytes that are read and written at places, and that a crash may tear until they are synced.
ghost use Rattle.std.specs.Prelude.{◌≡◌, ◌+◌, ◌≤◌, ◌^◌, ℕ, List, length, take, drop, Option, Some, IfOk, OnOk, OnErr, IfSome, IsErrOf};
ghost use Rattle.sz_io.specs.Rose.{Rose};
ghost use Rattle.sz_disk.specs.Crashes.{Images, MayBe, IsTheImage};
ghost use Rattle.sz_disk.specs.Calls.{overwrites, IsTorn, MayTear, NoMore, GoesOn, AreAmong};

use sz_io::{Failed, OutsideError};

/// Bytes at places, counted from 0. A crash may lose or tear what was written since the last sync.
pub trait Disk {
    /// The bytes that a read gives, where they are told.
    ghost bytes: { Self → Option (List ℕ) };

    /// What a crash now may leave, where it is told.
    ghost may_leave: { Self → Images };

    /// The time, as a number that doesn't fall.
    ghost time: { Self → ℕ };

    /// What a crash at some moment since a time might have left, during a call or between two, where it is told.
    ghost left_since: { Self → ℕ → Images };

    /// How many calls have failed. The count never falls, and at 2^64 - 1 it stays.
    ghost faults: { Self → ℕ };

    /// How many bytes there are.
    fn length(&mut self) -> Result<u64, Failed>
        ensures value { IfOk result (λ count. IfSome (bytes self.old) (λ held. count ≡ length held)) }

        ensures failed { OnErr result (Rose (faults self.old) (faults self.new)) }

        ensures same { bytes self.new ≡ bytes self.old }
        ensures no_more { NoMore (may_leave self.old) (may_leave self.new) }
        ensures kept { GoesOn may_leave time left_since faults self.old self.new };

    /// Fills `into` with the bytes from the place `at` on.
    fn read_at(&mut self, at: u64, into: &mut [u8]) -> Result<(), Failed>
        requires { IfSome (bytes self.old) (λ held. at + length into.old ≤ length held) }

        ensures value { OnOk result (IfSome (bytes self.old) (λ held. into.new ≡ take (length into.old) (drop at held))) }

        ensures failed { OnErr result (Rose (faults self.old) (faults self.new)) }

        ensures same { bytes self.new ≡ bytes self.old }
        ensures no_more { NoMore (may_leave self.old) (may_leave self.new) }
        ensures kept { GoesOn may_leave time left_since faults self.old self.new };

    /// Writes over the bytes from the place `at` on, and past the end. After an error they may be torn. A write whose end isn't
    /// below 2^63 fails and changes nothing.
    fn write_at(&mut self, at: u64, written: &[u8]) -> Result<(), OutsideError>
        requires { IfSome (bytes self.old) (λ held. at ≤ length held) }

        ensures value { OnOk result (bytes self.new ≡ overwrites at written.now (bytes self.old)) }
        ensures torn { OnErr result (IsTorn (record { at = at; count = length written.now }) (bytes self.old) (bytes self.new)) }

        ensures failed { IsErrOf result OutsideError.Failed → Rose (faults self.old) (faults self.new) }
        ensures too_far { 2 ^ 63 ≤ at + length written.now → IsErrOf result OutsideError.Failed }
        ensures too_far_same { 2 ^ 63 ≤ at + length written.now → bytes self.new ≡ bytes self.old }
        ensures too_far_no_more { 2 ^ 63 ≤ at + length written.now → NoMore (may_leave self.old) (may_leave self.new) }

        ensures crash { MayTear (record { at = at; count = length written.now }) (may_leave self.old) (may_leave self.new) }
        ensures kept { GoesOn may_leave time left_since faults self.old self.new };

    /// Makes sure of all that was written: once it succeeded, a crash leaves what a read gives.
    fn sync(&mut self) -> Result<(), Failed>
        ensures synced { OnOk result (IfSome (bytes self.old) (IsTheImage (may_leave self.new))) }

        ensures failed { OnErr result (Rose (faults self.old) (faults self.new)) }

        ensures same { bytes self.new ≡ bytes self.old }
        ensures no_more { NoMore (may_leave self.old) (may_leave self.new) }
        ensures kept { GoesOn may_leave time left_since faults self.old self.new };

    /// This moment is one of those since an earlier time.
    ghost counts_now: { (disk : Self) (t : ℕ) (image : List ℕ) → t ≤ time disk → MayBe (may_leave disk) image → MayBe (left_since disk t) image };

    /// A crash may leave what a read gives.
    ghost read_may_stay: { (disk : Self) (held : List ℕ) → bytes disk ≡ Some held → MayBe (may_leave disk) held };

    /// Since this moment there is no other.
    ghost only_now: { (disk : Self) → AreAmong (left_since disk (time disk)) (may_leave disk) };
}
