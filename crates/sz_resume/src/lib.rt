//! A job that goes on after the rounds of its journal, and appends each further round to it.
#![tactic(auto)]

mod halt;
mod job_journal;
mod joined;
mod laws;
mod resume;
mod resumed_job;
mod round;
mod skip;

pub use halt::Halt;
pub use job_journal::JobJournal;
pub use joined::Joined;
pub use laws::stops_leave_the_job;
pub use resume::resume_file;
pub use resumed_job::ResumedJob;
