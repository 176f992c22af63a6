//! Values as bytes, so that equal values have equal bytes and others don't.
#![tactic(auto)]

mod comparing;
mod digest;
mod error;
mod flat_list;
mod kept_bytes;
mod laws;
mod parts;
mod rank;
mod ranked_list;
mod reading;
mod short_bytes;
mod storage;
mod writing;

pub use error::FlatError;
pub use flat_list::FlatList;
pub use laws::one_spelling;
pub use ranked_list::RankedList;
pub use reading::from_flat;
pub use sz_value::NoMemory;
pub use writing::to_flat;
