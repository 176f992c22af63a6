//! Checked expressions.
ghost use Rattle.std.specs.Prelude.{◌≡◌, map};
ghost use Rattle.sz_core.specs.Nodes.{call, builtin, array, tuple, mapping, nodes_of, pairings_of};
ghost use Rattle.sz_core.specs.View.{node_of, form_of, pairing_of};

use sz_types::{BinOp, Builtin, Place, Ty, UnOp};
use sz_value::Value;

/// An expression: where its first token stands, its type, and what it is.
///
/// Contracts see it by `node_of` of `specs/View.antt`.
#[cycle(expr)]
pub struct CoreExpr {
    pub place: Place,
    pub ty: Ty,
    pub form: Form,
}

impl Drop for CoreExpr {
    #[cycle(drop_expr)]
    fn drop(self) {
        let CoreExpr {
            place: _,
            ty: _,
            form: _,
        } = self;
    }
}

/// What an expression is. Variables, statics and functions go by their numbers, each kind from 0.
#[cycle(expr)]
pub enum Form {
    /// The value of a literal.
    Constant(Value),
    /// A variable of the routine that the expression stands in.
    Local(u32),
    /// A static of the program.
    Static(u32),
    /// The record.
    Input,
    /// `f(e, ..)`, of a function that the program declares.
    Call(u32, Vec<CoreExpr>),
    /// A call of a predeclared function.
    Builtin(Builtin, Vec<CoreExpr>),
    /// `def(e)`.
    Def(Box<CoreExpr>),
    /// A conversion to the type of this expression.
    Convert(Box<CoreExpr>),
    /// `{e, ..}`, as an array.
    Array(Vec<CoreExpr>),
    /// `{e, ..}`, as a tuple or as a message.
    Tuple(Vec<CoreExpr>),
    /// `{k: v, ..}`.
    Map(Vec<CorePair>),
    /// `e[i]`.
    Index(Box<CoreExpr>, Box<CoreExpr>),
    /// `e[i: j]`.
    Slice(Box<CoreExpr>, Box<CoreExpr>, Box<CoreExpr>),
    /// `e.name`, by the place of the field, counted from 0.
    Field(Box<CoreExpr>, u32),
    /// An operator before its operand.
    Unary(UnOp, Box<CoreExpr>),
    /// An operator between its operands, both of which are evaluated.
    Binary(BinOp, Box<CoreExpr>, Box<CoreExpr>),
    /// `a && b`: the right one is evaluated only where the left one is true.
    And(Box<CoreExpr>, Box<CoreExpr>),
    /// `a || b`: the right one is evaluated only where the left one is false.
    Or(Box<CoreExpr>, Box<CoreExpr>),
}

impl Drop for Form {
    #[cycle(drop_expr)]
    fn drop(self) {
        match self {
            Form::Constant(_)
            | Form::Local(_)
            | Form::Static(_)
            | Form::Input
            | Form::Call(_, _)
            | Form::Builtin(_, _)
            | Form::Def(_)
            | Form::Convert(_)
            | Form::Array(_)
            | Form::Tuple(_)
            | Form::Map(_)
            | Form::Index(_, _)
            | Form::Slice(_, _, _)
            | Form::Field(_, _)
            | Form::Unary(_, _)
            | Form::Binary(_, _, _)
            | Form::And(_, _)
            | Form::Or(_, _) => {}
        }
    }
}

/// A key and its value.
#[cycle(expr)]
pub struct CorePair {
    pub key: CoreExpr,
    pub value: CoreExpr,
}

impl Drop for CorePair {
    #[cycle(drop_expr)]
    fn drop(self) {
        let CorePair { key: _, value: _ } = self;
    }
}

impl Form {
    /// A call of the function with this number.
    pub fn call(function: u32, arguments: Vec<CoreExpr>) -> Form
        ensures value { form_of result ≡ call function (nodes_of (map node_of arguments.items)) }
    {
        Form::Call(function, arguments)
    }

    /// A call of a function that each program has.
    pub fn builtin(function: Builtin, arguments: Vec<CoreExpr>) -> Form
        ensures value { form_of result ≡ builtin function (nodes_of (map node_of arguments.items)) }
    {
        Form::Builtin(function, arguments)
    }

    /// An array of these elements.
    #[tactic(auto, using(crate::proofs::RowLemmas::form_of_array))]
    pub fn array(elements: Vec<CoreExpr>) -> Form
        ensures value { form_of result ≡ array (nodes_of (map node_of elements.items)) }
    {
        Form::Array(elements)
    }

    /// A tuple, or a message, of these parts.
    #[tactic(auto, using(crate::proofs::RowLemmas::form_of_tuple))]
    pub fn tuple(parts: Vec<CoreExpr>) -> Form
        ensures value { form_of result ≡ tuple (nodes_of (map node_of parts.items)) }
    {
        Form::Tuple(parts)
    }

    /// A map of these keys and values.
    #[tactic(auto, using(crate::proofs::RowLemmas::form_of_map))]
    pub fn map(pairs: Vec<CorePair>) -> Form
        ensures value { form_of result ≡ mapping (pairings_of (map pairing_of pairs.items)) }
    {
        Form::Map(pairs)
    }
}
