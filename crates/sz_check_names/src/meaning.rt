//! What names stand for.
ghost use Rattle.std.specs.Prelude.{◌≡◌, length};
ghost use Rattle.sz_check_names.specs.Keeping.{IsTyped};
ghost use Rattle.sz_check_names.specs.Knowledge.{meaning_of, means_of, IsOfTypes};

use crate::written::{NamedType, NamedTypes};
use sz_core::Signature;
use sz_types::{Builtin, TableDecl, Ty};

/// What a name stands for, with its number among those of its kind, counted from 0.
pub enum Meaning {
    Variable(u32, Ty),
    /// A variable that a `when` quantifies, which can't be assigned.
    Quantified(u32, Ty),
    Static(u32, Ty),
    Type(u32),
    Table(u32, TableDecl),
    Function(u32, Signature),
    Predeclared(Builtin),
    Input,
}

impl Drop for Meaning {
    fn drop(self) {
        match self {
            Meaning::Variable(_, _)
            | Meaning::Quantified(_, _)
            | Meaning::Static(_, _)
            | Meaning::Type(_)
            | Meaning::Table(_, _)
            | Meaning::Function(_, _)
            | Meaning::Predeclared(_)
            | Meaning::Input => {}
        }
    }
}

/// The same, lent.
#[derive(Clone, Copy)]
pub enum Means<'k> {
    Variable(u32, &'k Ty),
    Quantified(u32, &'k Ty),
    Static(u32, &'k Ty),
    Type(NamedType<'k>),
    Table(u32, &'k TableDecl),
    Function(u32, &'k Signature),
    Predeclared(Builtin),
    Input,
}

impl Meaning {
    /// Lends it, with the types by which the numbers of types go.
    pub fn means<'k>(&'k self, types: &'k NamedTypes) -> Means<'k>
        requires typed { IsTyped (length types.now) self.now }
        ensures value { means_of result ≡ meaning_of types.now self.now }
        ensures types { IsOfTypes types.now result }
    {
        match self {
            Meaning::Variable(number, ty) => Means::Variable(*number, ty),
            Meaning::Quantified(number, ty) => Means::Quantified(*number, ty),
            Meaning::Static(number, ty) => Means::Static(*number, ty),
            Meaning::Type(number) => Means::Type(NamedType {
                types,
                number: *number,
            }),
            Meaning::Table(number, table) => Means::Table(*number, table),
            Meaning::Function(number, signature) => Means::Function(*number, signature),
            Meaning::Predeclared(builtin) => Means::Predeclared(*builtin),
            Meaning::Input => Means::Input,
        }
    }
}
