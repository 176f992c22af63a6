//! Statements.
ghost use Rattle.std.specs.Prelude.{◌≡◌, map};
ghost use Rattle.sz_tree.specs.Types.{params_of};
ghost use Rattle.sz_tree.specs.Statements.{block, function, stms_of, simple_place, stm_place};
ghost use Rattle.sz_tree.specs.View.{type_of, param_of, simple_of, stm_of};

use crate::expr::Expr;
use crate::name::Name;
use crate::types::{Param, TypeTree};
use sz_types::Place;

/// A step of a path: `[e]` or `.name`.
pub enum Step {
    Index(Expr),
    Field(Name),
}

impl Drop for Step {
    fn drop(self) {
        match self {
            Step::Index(_) | Step::Field(_) => {}
        }
    }
}

/// What is assigned to: a variable, or a part of it.
pub struct Path {
    pub name: Name,
    pub steps: Vec<Step>,
}

impl Drop for Path {
    fn drop(self) {
        let Path { name: _, steps: _ } = self;
    }
}

/// A statement that may stand as a step of a `for`.
pub enum Simple {
    Assign(Path, Expr),
    /// `name++`, which means `name = name + 1`.
    Increment(Name),
    /// `name--`, which means `name = name - 1`.
    Decrement(Name),
    /// `name(argument, ..)`.
    Call(Name, Vec<Expr>),
}

impl Drop for Simple {
    fn drop(self) {
        match self {
            Simple::Assign(_, _)
            | Simple::Increment(_)
            | Simple::Decrement(_)
            | Simple::Call(_, _) => {}
        }
    }
}

/// The first part of a `for`.
pub enum First {
    /// `name: type = e`.
    Declare(Name, TypeTree, Expr),
    /// `name := e`.
    Define(Name, Expr),
    Simple(Simple),
}

impl Drop for First {
    fn drop(self) {
        match self {
            First::Declare(_, _, _) | First::Define(_, _) | First::Simple(_) => {}
        }
    }
}

/// An index or a part of a table: its type, and its name if it has one.
#[derive(Drop)]
pub struct Elem {
    pub name: Option<Name>,
    pub of: TypeTree,
}

/// What stands after `table` in a declaration: `kind (argument) [index].. of elem weight elem`.
pub struct Table {
    pub kind: Name,
    pub argument: Option<i64>,
    pub indexes: Vec<Elem>,
    pub of: Elem,
    pub weight: Option<Elem>,
}

impl Drop for Table {
    fn drop(self) {
        let Table {
            kind: _,
            argument: _,
            indexes: _,
            of: _,
            weight: _,
        } = self;
    }
}

/// How many values a quantifier speaks of.
#[derive(Clone, Copy, Debug, PartialEq, Eq)]
pub enum Quantity {
    Some,
    Each,
    All,
}

/// `name, ..: quantity type;` in a `when`; there is at least one name.
pub struct Quantifier {
    pub names: Vec<Name>,
    pub quantity: Quantity,
    pub of: TypeTree,
}

impl Drop for Quantifier {
    fn drop(self) {
        let Quantifier {
            names: _,
            quantity: _,
            of: _,
        } = self;
    }
}

/// A statement. The place is that of its first token.
pub enum Stmt {
    /// `;`.
    Empty(Place),
    Block(Place, Vec<Stmt>),
    /// `name: type;`, or `name: type = e;`.
    Declare(Name, TypeTree, Option<Expr>),
    /// `name := e;`.
    Define(Name, Expr),
    Static(Place, Name, TypeTree, Expr),
    Type(Place, Name, TypeTree),
    Table(Name, Table),
    /// `name: function(param, ..): type {..}`.
    Function(Name, Vec<Param>, TypeTree, Vec<Stmt>),
    Simple(Simple),
    If(Place, Expr, Box<Stmt>, Option<Box<Stmt>>),
    While(Place, Expr, Box<Stmt>),
    DoWhile(Place, Box<Stmt>, Expr),
    For(Place, Option<First>, Option<Expr>, Option<Simple>, Box<Stmt>),
    Break(Place),
    Continue(Place),
    Return(Place, Option<Expr>),
    /// `emit table[index].. <- e weight e;`.
    Emit(Place, Name, Vec<Expr>, Expr, Option<Expr>),
    When(Place, Vec<Quantifier>, Expr, Box<Stmt>),
}

impl Drop for Stmt {
    fn drop(self) {
        match self {
            Stmt::Empty(_)
            | Stmt::Block(_, _)
            | Stmt::Declare(_, _, _)
            | Stmt::Define(_, _)
            | Stmt::Static(_, _, _, _)
            | Stmt::Type(_, _, _)
            | Stmt::Table(_, _)
            | Stmt::Function(_, _, _, _)
            | Stmt::Simple(_)
            | Stmt::If(_, _, _, _)
            | Stmt::While(_, _, _)
            | Stmt::DoWhile(_, _, _)
            | Stmt::For(_, _, _, _, _)
            | Stmt::Break(_)
            | Stmt::Continue(_)
            | Stmt::Return(_, _)
            | Stmt::Emit(_, _, _, _, _)
            | Stmt::When(_, _, _, _) => {}
        }
    }
}

impl Simple {
    /// The place of its first token.
    pub fn place(&self) -> Place
        ensures value { result ≡ simple_place (simple_of self.now) }
    {
        match self {
            Simple::Assign(path, _) => path.name.place(),
            Simple::Increment(name) | Simple::Decrement(name) | Simple::Call(name, _) => {
                name.place()
            }
        }
    }
}

impl Stmt {
    /// A block of these statements.
    pub fn block(place: Place, statements: Vec<Stmt>) -> Stmt
        ensures value { stm_of result ≡ block place (stms_of (map stm_of statements.items)) }
    {
        Stmt::Block(place, statements)
    }

    /// A declared function.
    pub fn function(name: Name, params: Vec<Param>, of: TypeTree, body: Vec<Stmt>) -> Stmt
        ensures value { stm_of result ≡ function name (params_of (map param_of params.items)) (type_of of) (stms_of (map stm_of body.items)) }
    {
        Stmt::Function(name, params, of, body)
    }

    /// The place of its first token.
    pub fn place(&self) -> Place
        ensures value { result ≡ stm_place (stm_of self.now) }
    {
        match self {
            Stmt::Simple(simple) => simple.place(),
            Stmt::Declare(name, _, _)
            | Stmt::Define(name, _)
            | Stmt::Table(name, _)
            | Stmt::Function(name, _, _, _) => name.place(),
            Stmt::Empty(place)
            | Stmt::Block(place, _)
            | Stmt::Static(place, _, _, _)
            | Stmt::Type(place, _, _)
            | Stmt::If(place, _, _, _)
            | Stmt::While(place, _, _)
            | Stmt::DoWhile(place, _, _)
            | Stmt::For(place, _, _, _, _)
            | Stmt::Break(place)
            | Stmt::Continue(place)
            | Stmt::Return(place, _)
            | Stmt::Emit(place, _, _, _, _)
            | Stmt::When(place, _, _, _) => *place,
        }
    }
}
