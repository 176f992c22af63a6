//! Types as they are written.
ghost use Rattle.std.specs.Prelude.{◌≡◌, map};
ghost use Rattle.sz_tree.specs.Types.{tuple, proto, params_of, fields_of, type_place};
ghost use Rattle.sz_tree.specs.View.{type_of, param_of, field_of};

use crate::name::Name;
use sz_types::Place;

/// A type with a reserved word for a name.
#[derive(Clone, Copy, Debug, PartialEq, Eq)]
pub enum BasicType {
    Bool,
    Int,
    String,
    Bytes,
    Time,
}

/// A type. The place is that of its first token.
#[cycle(types)]
pub enum TypeTree {
    Basic(Place, BasicType),
    Named(Name),
    /// `array of` its parts' type.
    Array(Place, Box<TypeTree>),
    /// `map [name: key] of value`; the name may be left out.
    Map(Place, Option<Name>, Box<TypeTree>, Box<TypeTree>),
    /// `{name: type, ..}`.
    Tuple(Place, Vec<Param>),
    /// `proto {name: type @ number label, ..}`.
    Proto(Place, Vec<ProtoField>),
}

impl Drop for TypeTree {
    #[cycle(drop_type)]
    fn drop(self) {
        match self {
            TypeTree::Basic(_, _)
            | TypeTree::Named(_)
            | TypeTree::Array(_, _)
            | TypeTree::Map(_, _, _, _)
            | TypeTree::Tuple(_, _)
            | TypeTree::Proto(_, _) => {}
        }
    }
}

/// A name and its type: a part of a tuple, or a parameter.
#[cycle(types)]
#[derive(Drop)]
pub struct Param {
    pub name: Name,
    pub of: TypeTree,
}

/// A field of a message: its name, type, number, and the word after the number.
#[cycle(types)]
pub struct ProtoField {
    pub name: Name,
    pub of: TypeTree,
    pub number: i64,
    pub label: Option<Name>,
}

impl Drop for ProtoField {
    #[cycle(drop_type)]
    fn drop(self) {
        let ProtoField {
            name: _,
            of: _,
            number: _,
            label: _,
        } = self;
    }
}

impl TypeTree {
    /// A tuple of these parts.
    pub fn tuple(place: Place, parts: Vec<Param>) -> TypeTree
        ensures value { type_of result ≡ tuple place (params_of (map param_of parts.items)) }
    {
        TypeTree::Tuple(place, parts)
    }

    /// A message of these fields.
    pub fn proto(place: Place, fields: Vec<ProtoField>) -> TypeTree
        ensures value { type_of result ≡ proto place (fields_of (map field_of fields.items)) }
    {
        TypeTree::Proto(place, fields)
    }

    /// The place of its first token.
    pub fn place(&self) -> Place
        ensures value { result ≡ type_place (type_of self.now) }
    {
        match self {
            TypeTree::Named(name) => name.place(),
            TypeTree::Basic(place, _)
            | TypeTree::Array(place, _)
            | TypeTree::Map(place, _, _, _)
            | TypeTree::Tuple(place, _)
            | TypeTree::Proto(place, _) => *place,
        }
    }
}
