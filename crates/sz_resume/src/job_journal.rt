//! The journal of a job that is resumed.
use crate::joined::Joined;
use sz_journal::Tail;

/// The journal of a job that is resumed: where it ends, and what its rounds hold together.
#[derive(Drop)]
pub struct JobJournal {
    /// Where it ends.
    pub tail: Tail,
    /// The tables of its rounds.
    pub joined: Joined,
}
