//! Declarations, read from the front of bytes.
ghost use Rattle.std.specs.Prelude.{◌≡◌};
ghost use Rattle.std.specs.Option.{option_map};
ghost use Rattle.sz_types.specs.Seen.{seen};
ghost use Rattle.sz_types.specs.SeenTables.{seen_table};
ghost use Rattle.sz_save_format.specs.Decoding as decoding;
ghost use Rattle.sz_save_format.specs.Decoding.{Reads, kind_at, weight_at, declaration_at};

use crate::error::SavedError;
use crate::names::read_name;
use crate::numbers::{read_byte, read_length};
use crate::types::{read_saved_type, read_types};
use std::alloc::Global;
use sz_core::is_allowed;
use sz_types::{TableDecl, TableKind, Ty};

/// The declaration in front.
#[tactic(auto, unfolding(crate::specs::Decoding::declaration_at))]
pub fn read_declaration(alloc: Global, flat: &[u8]) -> Result<(TableDecl, &[u8]), SavedError>
    ensures value { Reads (λ r. (seen_table r.0, r.1.now)) (declaration_at flat.now) result }
{
    let (name, rest) = read_name(alloc, flat)?;
    let (kind, rest) = read_kind(rest)?;
    let (limit, rest) = read_length(rest)?;
    let (indexes, rest) = read_types(alloc, rest)?;
    let (element, rest) = read_saved_type(alloc, rest)?;
    let (weight, rest) = read_weight(alloc, rest)?;
    let table = TableDecl {
        name,
        kind,
        limit,
        indexes,
        element,
        weight,
    };
    if !is_allowed(&table) {
        return Err(SavedError::NotSaved);
    }
    Ok((table, rest))
}

// The kind of table in front.
#[tactic(auto, unfolding(crate::specs::Decoding::kind_at))]
fn read_kind(flat: &[u8]) -> Result<(TableKind, &[u8]), SavedError>
    ensures value { Reads (λ r. (r.0, r.1.now)) (kind_at flat.now) result }
{
    let (byte, rest) = read_byte(flat)?;
    match kind_in(byte) {
        Some(kind) => Ok((kind, rest)),
        None => Err(SavedError::NotSaved),
    }
}

// The kind of table with a byte.
fn kind_in(byte: u8) -> Option<TableKind>
    ensures value { result ≡ decoding.kind_in byte }
{
    match byte {
        0 => Some(TableKind::Sum),
        1 => Some(TableKind::Maximum),
        2 => Some(TableKind::Minimum),
        3 => Some(TableKind::Set),
        4 => Some(TableKind::Collection),
        _ => None,
    }
}

// The type of the weights in front, if there are any.
#[tactic(auto, unfolding(crate::specs::Decoding::weight_at))]
fn read_weight(alloc: Global, flat: &[u8]) -> Result<(Option<Ty>, &[u8]), SavedError>
    ensures value { Reads (λ r. (option_map seen r.0, r.1.now)) (weight_at flat.now) result }
{
    let (byte, rest) = read_byte(flat)?;
    match byte {
        0 => Ok((None, rest)),
        1 => {
            let (ty, rest) = read_saved_type(alloc, rest)?;
            Ok((Some(ty), rest))
        }
        _ => Err(SavedError::NotSaved),
    }
}
