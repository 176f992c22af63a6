//! Plain data that the crates above share: positions in a program's text, texts, types, declarations of tables, operators; and which
//! types a value has, as a definition with its laws.
#![tactic(auto)]

mod comparing;
mod converting;
mod copying;
mod encoding;
mod fields;
mod frame;
mod kind;
mod laws;
mod numerals;
mod operator;
mod place;
mod table;
mod tables;
mod text;
mod ty;
mod typing_laws;
mod tys;

pub use comparing::same;
pub use converting::converts;
pub use copying::{copy_fields, copy_table, copy_ty, copy_tys};
pub use encoding::Encoding;
pub use frame::Frame;
pub use kind::{Kind, is_int, type_kind};
pub use laws::{
    a_type_converts_to_itself, alike_is_an_equivalence, alike_is_equal, conversions_are_the_table,
};
pub use numerals::digits_up_to;
pub use operator::{BinOp, Builtin, UnOp};
pub use place::Place;
/// There was no memory: the one answer of each call that takes memory which no clause speaks of.
pub use std::alloc::AllocError as NoMemory;
pub use table::{TableDecl, TableKind};
pub use tables::TableDecls;
pub use text::Text;
pub use ty::{Field, Fields, Ty};
pub use typing_laws::{compounds_have_the_types_of_their_parts, simple_values_have_one_type};
pub use tys::Tys;
