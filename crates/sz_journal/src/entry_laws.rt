//! The laws of the format, each as a function that does nothing and whose contract is the law.
ghost use Rattle.sz_journal.specs.EntryLaws.{IsOneJob, IsOneRound};

/// No bytes are those of two jobs.
pub fn one_job()
    ensures law { IsOneJob }
{}

/// No bytes are those of two rounds.
pub fn one_round()
    ensures law { IsOneRound }
{}
