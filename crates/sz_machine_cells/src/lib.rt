//! What a run has at hand: cells, operands, open calls and candidate lists; and what operators and stores make of cells.
#![tactic(auto)]

mod buffers;
mod calls;
mod candidates;
mod cell;
mod finding;
mod inside;
mod map_keys;
mod maps;
mod numbers;
mod operands;
mod parts;
mod results;
mod storing;
mod weights;

pub use calls::Calls;
pub use candidates::Candidates;
pub use cell::Cell;
pub use numbers::of_ints;
pub use operands::Operands;
pub use results::{
    applied_to_one, applied_to_two, array_of, binary_of, converted, decoded, definedness,
    element_of, part_of, slice_between, slice_of, tuple_of, unary_of,
};
pub use storing::{indexes_in, stored_in};
pub use sz_value::NoMemory;
pub use weights::{binary_weight, builtin_weight, conversion_weight, result_weight};
