//! What keeps the rounds of a journal while they are read.
ghost use Rattle.std.specs.Prelude.{◌≡◌, List, [], ◌∷◌, ◌++◌, OnOk};
ghost use Rattle.sz_types.specs.Tables.{Declaration};
ghost use Rattle.sz_journal.specs.Keeping.{IsNextKept};
ghost use Rattle.sz_journal.specs.declared.round.RoundEntry as entries;

use crate::{NoMemory, RoundEntries, RoundEntry};

/// What keeps rounds, one after the other: all of them, or what they hold together.
pub trait Keeper {
    /// Whether it keeps these rounds, of a program that declares these tables.
    ghost keeps: { Self → List Declaration → List entries.RoundEntry → Type 0 };

    /// Keeps a round behind those that it has. After an error it is of no use.
    fn keep(&mut self, round: RoundEntry) -> Result<(), NoMemory>
        requires next { IsNextKept keeps self.old round }
        ensures kept { (decls : List Declaration) (before : List entries.RoundEntry) → keeps self.old decls before
            → OnOk result (keeps self.new decls (before ++ round ∷ [])) };
}

impl Keeper for RoundEntries {
    ghost keeps = { λ kept decls rounds. kept ≡ rounds };

    fn keep(&mut self, round: RoundEntry) -> Result<(), NoMemory> {
        self.push(round)
    }
}
