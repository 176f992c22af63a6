//! The ledger of a round as a machine of one thread, and what its callers carry.
//!
//! No command makes a ledger of this crate: runs go by `sz_claims`, whose calls are shown to be a history of this machine's.
#![tactic(auto)]

mod book;
mod change;
mod closed;
mod held;
mod lane;
mod laws;
mod load;
mod machine;
mod plan;
mod receipt;
mod reserved;
mod shelf;

pub use book::{Book, BookPass};
pub use closed::{Closed, Words};
pub use held::Held;
pub use lane::{Lane, Shards};
pub use laws::{changes_are_seen, noted_deaths_are_true};
pub use load::Load;
pub use machine::Core;
pub use plan::{Plan, Tickets};
pub use receipt::{Receipt, Settled};
pub use sz_book_rules::{Claim, Entry, Event, Reply};
pub use sz_list::NoMemory;
