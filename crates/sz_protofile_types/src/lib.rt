//! From the bytes of a `.proto` file to the types of its messages: the messages and their fields, which messages lead back to themselves,
//! the types of the others, and the laws of these types.
#![tactic(auto)]

mod components;
mod count;
mod fields;
mod graph;
mod laws;
mod make;
mod mark;
mod messages;
mod named;
mod order;
mod ranks;
mod read;
mod search;
mod sort;

pub use components::component_numbers;
pub use fields::all_fields;
pub use laws::{field_names_are_names, file_types_are_sound, readings_are_unique};
pub use messages::{message_names, messages_in};
pub use named::{NamedType, NamedTypes};
pub use ranks::{Ranks, message_ranks};
pub use read::read_proto;
pub use sz_protofile_names::ProtoError;
