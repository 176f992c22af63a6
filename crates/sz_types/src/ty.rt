//! Types, and the fields inside them.
ghost use Rattle.std.specs.Prelude.{◌≡◌, map, IfOk};
ghost use Rattle.sz_types.specs.Seen.{seen_field, seen_fields};

use crate::NoMemory;
use crate::copying::copy_list;
use crate::encoding::Encoding;
use crate::text::Text;
use std::sync::Arc;

/// A type of a program, with all names written out.
///
/// Contracts see it as plain data, by `seen` of `specs/Seen.antt`.
#[cycle(ty)]
#[derive(Debug)]
pub enum Ty {
    Bool,
    Int,
    Time,
    Str,
    Bytes,
    /// The type of the elements.
    Array(Box<Ty>),
    /// The type of the keys, then that of the values.
    Map(Box<Ty>, Box<Ty>),
    Tuple(Fields),
    Proto(Fields),
}

impl Drop for Ty {
    #[cycle(drop)]
    fn drop(self) {
        match self {
            Ty::Bool
            | Ty::Int
            | Ty::Time
            | Ty::Str
            | Ty::Bytes
            | Ty::Array(_)
            | Ty::Map(_, _)
            | Ty::Tuple(_)
            | Ty::Proto(_) => {}
        }
    }
}

/// A field of a tuple or a proto type.
#[cycle(ty)]
#[derive(Debug)]
pub struct Field {
    pub name: Text,
    pub ty: Ty,
    /// The number that stands for the field in a message, and 0 in a tuple.
    pub number: u32,
    /// `Plain` in a tuple.
    pub code: Encoding,
}

impl Drop for Field {
    #[cycle(drop)]
    fn drop(self) {
        let Field {
            name: _,
            ty: _,
            number: _,
            code: _,
        } = self;
    }
}

/// The fields of a tuple or a proto type, in order. Places are counted from 0. A copy shares the list with what it was
/// copied from, so it takes no memory.
///
/// Contracts see the list of their plain data.
#[cycle(ty)]
#[derive(Debug)]
pub struct Fields {
    pub(crate) fields: Arc<Vec<Field>>,
}

impl Drop for Fields {
    #[cycle(drop)]
    fn drop(self) {
        let Fields { fields: _ } = self;
    }
}

impl Fields {
    /// Gives the fields back: a copy of each, where they are shared, and else the list itself.
    pub fn into_vec(self) -> Result<Vec<Field>, NoMemory>
        ensures value { IfOk result (λ fields. map seen_field fields.items ≡ seen_fields self) }
    {
        let Self { fields } = self;
        match Arc::try_unwrap(fields) {
            Ok(fields) => Ok(fields),
            Err(shared) => copy_list(*shared.allocator(), shared.as_slice()),
        }
    }
}
