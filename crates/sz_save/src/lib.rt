//! Saved tables: read, written and joined.
#![tactic(auto)]

mod copied;
mod declared;
mod entries;
mod heights;
mod joining;
mod order;
mod reading;
mod rows;
mod saving;
mod spelled;
mod stopped;
mod sums;
mod values;
mod walk;

pub use declared::same_decls;
pub use heights::is_low;
pub use joining::{JoinError, join, join_owned};
pub use reading::join_read;
pub use saving::save;
pub use stopped::ReadJoinError;
pub use sz_save_format::{
    NoMemory, Saved, SavedError, SavedTables, one_spelling, read_head, read_saved, write_saved,
};
