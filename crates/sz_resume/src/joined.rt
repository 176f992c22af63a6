//! The tables of rounds together.
ghost use Rattle.std.specs.Prelude.{◌≡◌, ◌++◌, ◌∷◌, [], List, IfOk, OnOk};
ghost use Rattle.sz_types.specs.Tables.{Declaration};
ghost use Rattle.sz_save.specs.Saving.{HaveSpelling};
ghost use Rattle.sz_total.specs.Weights.{HaveTheirWeights};
ghost use Rattle.sz_journal.specs.declared.round.RoundEntry as entries;
ghost use Rattle.sz_resume.specs.Entries.{HoldsRounds};

use std::alloc::Global;
use std::mem;
use sz_journal::{Keeper, NoMemory, RoundEntry};
use sz_merge::{Merging, saved_runs_join};
use sz_save::{Saved, save};
use sz_total::Total;
use sz_types::TableDecls;

/// What rounds hold together. It takes memory for that, however many rounds there are.
#[derive(Drop)]
pub struct Joined {
    alloc: Global,
    merging: Merging,
}

impl Joined {
    ghost use Rattle.sz_resume.specs.Joining.{HaveJoined};

    /// What no rounds of a program that declares these tables hold.
    pub fn new(alloc: Global, decls: &TableDecls) -> Result<Joined, NoMemory>
        requires weights { HaveTheirWeights decls.now }
        requires spelled { HaveSpelling decls.now }
        ensures value { IfOk result (λ joined. HaveJoined joined decls.now []) }
    {
        let none = save(alloc, &Total::new(alloc, decls)?, decls, 0)?;
        let merging = Merging::new(alloc).take(alloc, none)?;
        Ok(Joined { alloc, merging })
    }

    /// The tables that the rounds hold together. They are handed over.
    pub(crate) fn tables(&mut self) -> Result<Saved, NoMemory>
        requires some { (decls : List Declaration) × (rounds : List entries.RoundEntry) × HaveJoined self.old decls rounds }
        ensures value { (decls : List Declaration) (rounds : List entries.RoundEntry) → HaveJoined self.old decls rounds
            → IfOk result (λ all. HoldsRounds decls rounds all) }
    {
        saved_runs_join();
        let merging = mem::replace(&mut self.merging, Merging::new(self.alloc));
        merging.finish(self.alloc)
    }
}

impl Keeper for Joined {
    ghost use Rattle.sz_resume.specs.Joining.{HaveJoined};

    ghost keeps = { HaveJoined };

    fn keep(&mut self, round: RoundEntry) -> Result<(), NoMemory> {
        let merging = mem::replace(&mut self.merging, Merging::new(self.alloc));
        self.merging = merging.take(self.alloc, round.saved)?;
        Ok(())
    }
}
