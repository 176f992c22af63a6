//! An open journal that keeps its rounds.
ghost use Rattle.std.specs.Prelude.{◌≡◌, ◌<◌, ℕ, List, [], ◌∷◌, ◌++◌, length, OnOk, IsErrOf, Some, None, true};
ghost use Rattle.sz_types.specs.Tables.{Declaration};
ghost use Rattle.sz_io.specs.Rose.{Rose};
ghost use Rattle.sz_disk.specs.Crashes.{are_told};
ghost use Rattle.sz_disk.specs.Crashing.{Rests, LeavesOnly, DoesNotFall};
ghost use Rattle.sz_journal.specs.Rounds.{AreRounds};
ghost use Rattle.sz_journal.specs.declared.job.JobBytes.{JobBytes};
ghost use Rattle.sz_journal.specs.Journals.{Spells};
ghost use Rattle.sz_journal.specs.Journal.{rounds_of, last_gate, IsOf, CanAppend, KeepsRounds, SpellsOneOf};

use crate::{RoundEntries, RoundEntry, Tail};
use sz_disk::Disk;
use sz_io::OutsideError;

/// The rounds of a job, and where its journal ends.
#[derive(Drop)]
pub struct Journal {
    rounds: RoundEntries,
    tail: Tail,
    ghost all: { rounds ≡ rounds_of tail },
}

impl Journal {
    ghost use Rattle.sz_journal.specs.Kept.{tail_of};

    /// The journal that ends so, with all its rounds.
    pub(crate) fn new(rounds: RoundEntries, tail: Tail) -> Journal
        requires all { rounds ≡ rounds_of tail }
        ensures value { tail_of result ≡ tail }
    {
        Journal { rounds, tail }
    }

    /// The rounds, the first of them first.
    pub fn rounds(&self) -> &RoundEntries
        ensures value { result.now ≡ rounds_of (tail_of self.now) }
    {
        &self.rounds
    }

    /// The gate behind which the last round's entry stands: the byte of the disk, counted from 0.
    pub fn last_gate(&self) -> u64
        requires { 0 < length (rounds_of (tail_of self.now)) }
        ensures value { result ≡ last_gate (tail_of self.now) }
    {
        self.tail.last_gate()
    }

    /// Writes a round behind the last gate, and opens this gate once that is synced. After an error the journal has to be opened again.
    pub fn append<K: Disk>(&mut self, disk: &mut K, round: RoundEntry) -> Result<(), OutsideError>
        requires can { CanAppend (tail_of self.old) (K.bytes disk.old) round }

        ensures rounds { OnOk result (rounds_of (tail_of self.new) ≡ rounds_of (tail_of self.old) ++ round ∷ []) }
        ensures is_of { OnOk result ((job : JobBytes) → IsOf job (tail_of self.old) → IsOf job (tail_of self.new)) }
        ensures ok { (job : JobBytes) (decls : List Declaration) (held : List ℕ) → K.bytes disk.old ≡ Some held → IsOf job (tail_of self.old)
            → Spells job decls held (rounds_of (tail_of self.old)) → AreRounds job decls (rounds_of (tail_of self.old) ++ round ∷ [])
            → OnOk result (KeepsRounds (K.bytes disk.new) (K.may_leave disk.new) job decls (rounds_of (tail_of self.old) ++ round ∷ [])) }

        ensures leaves { (job : JobBytes) (decls : List Declaration) (held : List ℕ) → Rests (K.bytes disk.old) (K.may_leave disk.old) held
            → IsOf job (tail_of self.old) → Spells job decls held (rounds_of (tail_of self.old))
            → AreRounds job decls (rounds_of (tail_of self.old) ++ round ∷ []) → are_told (K.may_leave disk.old) ≡ true
            → LeavesOnly K.time K.left_since disk.old disk.new (SpellsOneOf job decls (rounds_of (tail_of self.old)) round) }
        ensures told { are_told (K.may_leave disk.new) ≡ are_told (K.may_leave disk.old) }
        ensures untold { K.bytes disk.old ≡ None → K.bytes disk.new ≡ None }

        ensures failed { IsErrOf result OutsideError.Failed → Rose (K.faults disk.old) (K.faults disk.new) }

        ensures faults { DoesNotFall (K.faults disk.old) (K.faults disk.new) }
    {
        let count = self.rounds.len();
        self.rounds.push(round)?;
        let written = self.tail.append(disk, self.rounds.get(count));
        if written.is_err() {
            self.rounds.truncate(count);
        }
        written
    }
}
