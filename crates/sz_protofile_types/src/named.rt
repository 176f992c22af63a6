//! Types with their names.

use std::marker::Model;
use sz_list::Items;
use sz_types::{Text, Ty};

/// A type with its name. Contracts see it as plain data.
#[derive(Debug)]
pub struct NamedType {
    pub name: Text,
    pub ty: Ty,
}

impl Drop for NamedType {
    fn drop(self) {
        let NamedType { name: _, ty: _ } = self;
    }
}

impl Model for NamedType {
    ghost use Rattle.sz_types.specs.Seen.{seen};
    ghost use Rattle.sz_protofile.specs.Types.{TypeShape};
    ghost use Rattle.sz_protofile_types.specs.Code.{type_code};

    ghost Value = { TypeShape };

    ghost coded = { type_code };

    ghost view = { λ t. record { name = t.name; shape = seen t.ty } };
}

/// Types with their names, in the order in which their messages begin. Places are counted from 0.
pub type NamedTypes = Items<NamedType>;
