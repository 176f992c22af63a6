//! Checked programs.
ghost use Rattle.std.specs.Prelude.{◌≡◌, map};
ghost use Rattle.sz_core.specs.Programs.{core_of};
ghost use Rattle.sz_core.specs.View.{item_of};
ghost use Rattle.sz_core.specs.Sound.{IsSound};

use crate::expr::CoreExpr;
use crate::stmt::CoreStmt;
use std::marker::Model;
use sz_types::{Place, TableDecl, Ty, Tys};

/// What a call needs to know of a function.
pub struct Signature {
    pub parameters: Tys,
    pub result: Ty,
    /// Whether the function emits, itself or through a function that it calls.
    pub emits: bool,
}

impl Drop for Signature {
    fn drop(self) {
        let Signature {
            parameters: _,
            result: _,
            emits: _,
        } = self;
    }
}

/// A function.
pub struct Function {
    pub signature: Signature,
    /// The types of its variables by number, its parameters first.
    pub locals: Tys,
    pub body: Vec<CoreStmt>,
}

impl Drop for Function {
    fn drop(self) {
        let Function {
            signature: _,
            locals: _,
            body: _,
        } = self;
    }
}

/// A static: the place of its first token, its type and its value.
pub struct Static {
    pub place: Place,
    pub ty: Ty,
    pub value: CoreExpr,
}

impl Drop for Static {
    fn drop(self) {
        let Static {
            place: _,
            ty: _,
            value: _,
        } = self;
    }
}

/// What stands at the top level. Tables, functions and statics have numbers from 0 in the order of the items, each kind
/// its own.
pub enum Item {
    Table(TableDecl),
    Function(Function),
    Static(Static),
    /// A statement, which runs for each record.
    Statement(CoreStmt),
}

impl Drop for Item {
    fn drop(self) {
        match self {
            Item::Table(_) | Item::Function(_) | Item::Static(_) | Item::Statement(_) => {}
        }
    }
}

/// A checked program: its items in order, and the types of the record's variables by number. It is sound, as `IsSound`
/// of `specs/Sound.antt` says.
pub struct Program {
    items: Vec<Item>,
    locals: Tys,
}

impl Drop for Program {
    fn drop(self) {
        let Program {
            items: _,
            locals: _,
        } = self;
    }
}

impl Model for Program {
    ghost use Rattle.sz_core.specs.Programs.{Core};
    ghost use Rattle.sz_core.specs.ProgramCode.{core_code};

    ghost Value = { Core };

    ghost coded = { core_code };

    ghost use Rattle.std.specs.Prelude.{map};
    ghost use Rattle.sz_core.specs.View.{item_of};
    ghost use Rattle.sz_core.specs.Sound.{IsSound};

    ghost view = { λ program. record { items = map item_of program.items.items; locals = program.locals } };

    ghost invariant = { λ program. IsSound (record { items = map item_of program.items.items; locals = program.locals }) };
}

impl Program {
    /// The program of these parts, which takes no memory.
    pub fn new(items: Vec<Item>, locals: Tys) -> Program
        requires sound { IsSound (core_of (map item_of items.items) locals) }
        ensures value { result ≡ core_of (map item_of items.items) locals }
    {
        Program { items, locals }
    }

    /// The items, in order.
    pub fn items(&self) -> &[Item]
        ensures value { map item_of result.now ≡ self.now.items }
        ensures sound { IsSound self.now }
    {
        self.items.as_slice()
    }

    /// The types of the record's variables.
    pub fn locals(&self) -> &Tys
        ensures value { result.now ≡ self.now.locals }
        ensures sound { IsSound self.now }
    {
        &self.locals
    }
}
