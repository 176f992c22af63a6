//! What holds of every history of a ledger. The calls do nothing: they promise laws of `specs/`.
ghost use Rattle.sz_book_rules.specs.Counting.{NotedDeathsAreTrue};
ghost use Rattle.sz_book.specs.Held.{ChangesAreSeen};

use crate::load::Load;

/// Where reports are true, each noted death is of an attempt that died.
pub fn noted_deaths_are_true<T: Load>()
    ensures true_deaths { NotedDeathsAreTrue T.died T.is_bad }
{}

/// A ledger's history has just the calls that left another state, but for which lanes are out.
pub fn changes_are_seen()
    ensures seen { ChangesAreSeen }
{}
