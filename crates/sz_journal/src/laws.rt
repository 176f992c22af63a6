//! The laws of journals, each as a function that does nothing and whose contract is the law.
ghost use Rattle.sz_journal.specs.Laws.{IsOneStanding, IsOneJournal};

/// No journal is two of these for a job: without an entry, of another job, damaged at a place, or of the job with some rounds.
pub fn one_standing()
    ensures law { IsOneStanding }
{}

/// No journal is that of two jobs, nor of one job with two lists of rounds.
pub fn one_journal()
    ensures law { IsOneJournal }
{}
