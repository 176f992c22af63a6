//! Where a journal ends, and rounds that are appended there.
ghost use Rattle.std.specs.Prelude.{◌≡◌, ◌+◌, ◌<◌, ◌-◌, ◌^◌, ℕ, List, [], ◌∷◌, ◌++◌, length, OnOk, OnErr, IsErrOf, Some, None, true};
ghost use Rattle.sz_types.specs.Tables.{Declaration};
ghost use Rattle.sz_io.specs.Rose.{Rose};
ghost use Rattle.sz_disk.specs.Crashes.{are_told};
ghost use Rattle.sz_disk.specs.Crashing.{Rests, LeavesOnly, DoesNotFall};
ghost use Rattle.sz_journal.specs.Rounds.{AreRounds, last_progress};
ghost use Rattle.sz_journal.specs.Logged.{logged};
ghost use Rattle.sz_journal.specs.declared.job.JobBytes.{JobBytes};
ghost use Rattle.sz_journal.specs.Journals.{Spells};

use crate::{Progress, RoundEntry, write_round};
use http_server::Log;
use std::alloc::Global;
use sz_disk::{Disk, append};
use sz_io::OutsideError;

/// How many bytes a gate and a length have, which stand in front of an entry.
pub(crate) const FRONT_BYTES: u64 = 9;

/// Where a journal ends: how far its rounds have come, and its last gates.
///
/// Contracts see the rounds themselves. They are a list for proofs alone, so that this takes as much memory for a thousand rounds as for one.
#[derive(Drop)]
pub struct Tail {
    alloc: Global,
    log: Log<RoundEntry, ()>,
    progress: Progress,
    last: u64,
    end: u64,
    ghost low: { end < 2 ^ 64 - 1 },
    ghost reached: { progress ≡ last_progress (logged log.items) },
}

impl Tail {
    ghost use Rattle.sz_journal.specs.Journal.{rounds_of, end_gate, last_gate, IsOf, CanAppend, KeepsRounds, SpellsOneOf};

    /// The end of a journal without a round.
    pub(crate) fn new(alloc: Global, end: u64) -> Tail
        requires low { end < 2 ^ 64 - 1 }
        ensures rounds { rounds_of result ≡ [] }
        ensures end { end_gate result ≡ end }
    {
        Tail {
            alloc,
            log: Log::new(),
            progress: Progress::none(),
            last: 0,
            end,
        }
    }

    /// How far the rounds have come.
    pub fn progress(&self) -> Progress
        ensures value { result ≡ last_progress (rounds_of self.now) }
    {
        self.progress
    }

    /// The gate behind which the last round's entry stands: the byte of the disk, counted from 0.
    pub fn last_gate(&self) -> u64
        requires { 0 < length (rounds_of self.now) }
        ensures value { result ≡ last_gate self.now }
    {
        self.last
    }

    /// The place of the gate behind the last entry.
    pub(crate) fn end(&self) -> u64
        ensures value { result ≡ end_gate self.now }
        ensures low { result < 2 ^ 64 - 1 }
    {
        self.end
    }

    /// Moves behind a round whose entry of `size` bytes was read behind the last gate.
    pub(crate) fn take(&mut self, round: &RoundEntry, size: u64)
        requires low { end_gate self.old + 9 + size < 2 ^ 64 - 1 }
        ensures rounds { rounds_of self.new ≡ rounds_of self.old ++ round.now ∷ [] }
        ensures last { last_gate self.new ≡ end_gate self.old }
        ensures end { end_gate self.new ≡ end_gate self.old + 9 + size }
    {
        self.move_behind(round, self.end + FRONT_BYTES + size);
    }

    /// Moves behind a round whose entry stands in front of the gate at `end`.
    fn move_behind(&mut self, round: &RoundEntry, end: u64)
        requires low { end < 2 ^ 64 - 1 }
        ensures rounds { rounds_of self.new ≡ rounds_of self.old ++ round.now ∷ [] }
        ensures last { last_gate self.new ≡ end_gate self.old }
        ensures end { end_gate self.new ≡ end }
    {
        self.log = self.log.and(round, &());
        self.progress = Progress::after(round);
        self.last = self.end;
        self.end = end;
    }

    /// Writes a round behind the last gate, and opens this gate once that is synced. After an error the journal has to be opened again.
    pub fn append<K: Disk>(&mut self, disk: &mut K, round: &RoundEntry) -> Result<(), OutsideError>
        requires can { CanAppend self.old (K.bytes disk.old) round.now }

        ensures rounds { OnOk result (rounds_of self.new ≡ rounds_of self.old ++ round.now ∷ []) }
        ensures err { OnErr result (rounds_of self.new ≡ rounds_of self.old) }
        ensures is_of { OnOk result ((job : JobBytes) → IsOf job self.old → IsOf job self.new) }
        ensures ok { (job : JobBytes) (decls : List Declaration) (held : List ℕ) → K.bytes disk.old ≡ Some held → IsOf job self.old
            → Spells job decls held (rounds_of self.old) → AreRounds job decls (rounds_of self.old ++ round.now ∷ [])
            → OnOk result (KeepsRounds (K.bytes disk.new) (K.may_leave disk.new) job decls (rounds_of self.old ++ round.now ∷ [])) }

        ensures leaves { (job : JobBytes) (decls : List Declaration) (held : List ℕ) → Rests (K.bytes disk.old) (K.may_leave disk.old) held
            → IsOf job self.old → Spells job decls held (rounds_of self.old) → AreRounds job decls (rounds_of self.old ++ round.now ∷ [])
            → are_told (K.may_leave disk.old) ≡ true
            → LeavesOnly K.time K.left_since disk.old disk.new (SpellsOneOf job decls (rounds_of self.old) round.now) }
        ensures told { are_told (K.may_leave disk.new) ≡ are_told (K.may_leave disk.old) }
        ensures untold { K.bytes disk.old ≡ None → K.bytes disk.new ≡ None }

        ensures failed { IsErrOf result OutsideError.Failed → Rose (K.faults disk.old) (K.faults disk.new) }

        ensures faults { DoesNotFall (K.faults disk.old) (K.faults disk.new) }
    {
        let entry = write_round(self.alloc, round)?;
        let next = append(self.alloc, disk, self.end, &entry)?;
        self.move_behind(round, next);
        Ok(())
    }
}
