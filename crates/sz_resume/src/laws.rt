//! The law of jobs that are stopped, as a function whose contract is the law.
ghost use Rattle.sz_resume.specs.Stops.{StopsLeaveTheJob};

use sz_journal::one_standing;

/// However often a job is stopped, what is left of its journal is one that a call of the job may find, and no round of it is lost.
pub fn stops_leave_the_job()
    ensures law { StopsLeaveTheJob }
{
    one_standing();
}
