//! The ledger of a round as a machine, as definitions: its state, which events fit it, the reply to each and the state after it, which
//! histories are legal, and the laws of all legal histories. No ledger runs here; `sz_book` and `sz_claims` have those that do.
#![tactic(auto)]

mod claim;
mod event;
mod laws;

pub use claim::Claim;
pub use event::{Entry, Event, Reply};
pub use laws::{each_shard_counts_once, each_shard_is_decided};
