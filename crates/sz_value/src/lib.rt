//! Values of a program, what a slot of the machine holds, their order, their weight and their copies.
#![tactic(auto)]

mod characters;
mod comparing;
mod copying;
mod form;
mod hashing;
mod laws;
mod list;
mod marked;
mod octets;
mod ordering;
mod pairs;
mod run;
mod runs;
mod slots;
mod text;
mod value;
mod weighing;

pub use characters::{character_count, rest_after};
pub use copying::{copy, copy_list, copy_pairs};
pub use laws::{
    a_pair_sets_its_key, compounds_compare_by_parts, compounds_weigh_their_parts, order_is_total,
    ties_are_equal,
};
pub use octets::Octets;
pub use ordering::{equal, order};
pub use slots::{Slot, Slots};
/// There was no memory: the one answer of each call that takes memory which no clause speaks of.
pub use std::alloc::AllocError as NoMemory;
pub use text::Text;
pub use value::{List, Pair, Pairs, Value};
pub use weighing::weight;
