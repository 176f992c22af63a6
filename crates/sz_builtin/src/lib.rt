//! What operators, predeclared functions and conversions make of values.
#![tactic(auto)]

mod ascii;
mod calling;
mod characters;
mod conversions;
mod indexing;
mod joining;
mod laws;
mod letters;
mod numbers;
mod numerals;
mod one_operand;
mod predeclared;
mod searching;
mod slicing;
mod two_operands;
mod view;

pub use ascii::Ascii;
pub use calling::{builtin, builtin_of_one, builtin_of_two};
pub use characters::letters_count;
pub use conversions::{convert, convert_view};
pub use indexing::{index, index_of_views};
pub use laws::{operators_keep_types, parts_and_calls_keep_types};
pub use letters::Letters;
pub use numerals::number_in;
pub use one_operand::{unary, unary_of_view};
pub use searching::place_of_bytes;
pub use slicing::{bytes_between, slice, slice_of_view, text_between};
pub use sz_value::NoMemory;
pub use two_operands::{binary, binary_of_views};
pub use view::{Kind, Lent, View};
