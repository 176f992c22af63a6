//! From a `.proto` file to its lines, and what these mean, as definitions: names, look-up, faults, fields and types.
#![tactic(auto)]

mod brackets;
mod error;
mod failed;
mod fault;
mod field;
mod file;
mod form;
mod item;
mod keyword;
mod line;
mod number;
mod part;
mod scalar;
mod scope;
mod token;

pub use error::FileError;
pub use fault::Fault;
pub use field::{FieldIn, Plain, PlainKind, Sort};
pub use file::lines;
pub use keyword::Keyword;
pub use line::{FieldLine, Line, Member};
pub use scalar::Scalar;
pub use scope::Scope;
