//! A journal of a job: the rounds that are done, kept on a disk through every crash; the format of its entries, and what its bytes are
//! for a job.
#![tactic(auto)]

mod entry_error;
mod entry_laws;
mod entry_reading;
mod error;
mod following;
mod job;
mod journal;
mod keeper;
mod laws;
mod numbers;
mod opening;
mod parts;
mod progress;
mod put;
mod reading;
mod round;
mod tail;
mod writing;

pub use entry_error::EntryError;
pub use entry_laws::{one_job, one_round};
pub use entry_reading::{read_job, read_round};
pub use error::OpenError;
pub use following::may_be_next;
pub use job::{JobBytes, Numbers, Triple, Triples};
pub use journal::Journal;
pub use keeper::Keeper;
pub use laws::{one_journal, one_standing};
pub use opening::{open_journal, open_rounds};
pub use progress::{Progress, last_progress};
pub use round::{RoundEntries, RoundEntry};
pub use sz_value::NoMemory;
pub use tail::Tail;
pub use writing::{write_job, write_round};
