//! Saved tables: what a program's tables hold, as the bytes of a file and back.
#![tactic(auto)]

mod declarations;
mod entries;
mod error;
mod laws;
mod names;
mod numbers;
mod order;
mod put;
mod put_rows;
mod rows;
mod saved;
mod sized;
mod types;
mod values;
mod writing;

pub use declarations::read_declaration;
pub use entries::read_entry;
pub use error::SavedError;
pub use laws::one_spelling;
pub use numbers::{read_count, read_length};
pub use saved::{Saved, read_head, read_saved};
pub use sz_print::SavedTables;
pub use sz_value::NoMemory;
pub use writing::write_saved;
