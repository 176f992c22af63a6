//! What is known in front of a statement while a program is judged: names with their meanings, and the types that are
//! written with them.
#![tactic(auto)]

mod error;
mod field_names;
mod known;
mod meaning;
mod number;
mod site;
mod sort;
mod types;
mod waiting;
mod written;

pub use error::{JudgeError, Verdict};
pub use known::{Aside, Known};
pub use meaning::{Meaning, Means};
pub use number::small;
pub use site::Site;
pub use sz_check_rules::Cause;
pub use types::{judge_type, judge_written};
pub use waiting::beside;
pub use written::{NamedType, NamedTypes, Written, WrittenField, basic_type};
