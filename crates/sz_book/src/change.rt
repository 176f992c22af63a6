//! One line of a history as it is kept.

use sz_book_rules::{Event, Reply};

/// A call that changed a ledger, its answer, and how many shards came with it.
#[derive(Clone, Copy, Debug)]
pub struct Change {
    pub event: Event,
    pub reply: Reply,
    pub shards: usize,
}
