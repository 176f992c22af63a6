//! Expressions.
ghost use Rattle.std.specs.Prelude.{◌≡◌, map};
ghost use Rattle.sz_tree.specs.Expressions.{call, list, mapping, exps_of, pairs_of, place_of, loose};
ghost use Rattle.sz_tree.specs.View.{tree_of, pair_of};

use crate::literal::Literal;
use crate::name::Name;
use crate::operator::{BinaryOp, UnaryOp};
use crate::types::BasicType;
use sz_types::Place;

/// An expression. The place is that of its first token.
#[cycle(expr)]
pub enum Expr {
    Literal(Place, Literal),
    Named(Name),
    /// `name(argument, ..)`.
    Call(Name, Vec<Expr>),
    /// `def(e)`.
    Def(Place, Box<Expr>),
    /// `(e)`.
    Paren(Place, Box<Expr>),
    /// `int(e)`, and so for `string`, `bytes` and `time`.
    Convert(Place, BasicType, Box<Expr>),
    /// `{e, ..}`, or `{}`.
    List(Place, Vec<Expr>),
    /// `{key: value, ..}`, or `{:}`.
    Map(Place, Vec<Pair>),
    /// `e[i]`.
    Index(Place, Box<Expr>, Box<Expr>),
    /// `e[i: j]`.
    Slice(Place, Box<Expr>, Box<Expr>, Box<Expr>),
    /// `e.name`.
    Field(Place, Box<Expr>, Name),
    Unary(Place, UnaryOp, Box<Expr>),
    Binary(Place, BinaryOp, Box<Expr>, Box<Expr>),
}

impl Drop for Expr {
    #[cycle(drop_expr)]
    fn drop(self) {
        match self {
            Expr::Literal(_, _)
            | Expr::Named(_)
            | Expr::Call(_, _)
            | Expr::Def(_, _)
            | Expr::Paren(_, _)
            | Expr::Convert(_, _, _)
            | Expr::List(_, _)
            | Expr::Map(_, _)
            | Expr::Index(_, _, _)
            | Expr::Slice(_, _, _, _)
            | Expr::Field(_, _, _)
            | Expr::Unary(_, _, _)
            | Expr::Binary(_, _, _, _) => {}
        }
    }
}

/// A key and its value.
#[cycle(expr)]
pub struct Pair {
    pub key: Expr,
    pub value: Expr,
}

impl Drop for Pair {
    #[cycle(drop_expr)]
    fn drop(self) {
        let Pair { key: _, value: _ } = self;
    }
}

impl Expr {
    /// A call of `name`.
    pub fn call(name: Name, arguments: Vec<Expr>) -> Expr
        ensures value { tree_of result ≡ call name (exps_of (map tree_of arguments.items)) }
    {
        Expr::Call(name, arguments)
    }

    /// A list of these items.
    pub fn list(place: Place, items: Vec<Expr>) -> Expr
        ensures value { tree_of result ≡ list place (exps_of (map tree_of items.items)) }
    {
        Expr::List(place, items)
    }

    /// A map of these pairs.
    pub fn map(place: Place, pairs: Vec<Pair>) -> Expr
        ensures value { tree_of result ≡ mapping place (pairs_of (map pair_of pairs.items)) }
    {
        Expr::Map(place, pairs)
    }

    /// The place of its first token.
    pub fn place(&self) -> Place
        ensures value { result ≡ place_of (tree_of self.now) }
    {
        match self {
            Expr::Named(name) | Expr::Call(name, _) => name.place(),
            Expr::Literal(place, _)
            | Expr::Def(place, _)
            | Expr::Paren(place, _)
            | Expr::Convert(place, _, _)
            | Expr::List(place, _)
            | Expr::Map(place, _)
            | Expr::Index(place, _, _)
            | Expr::Slice(place, _, _, _)
            | Expr::Field(place, _, _)
            | Expr::Unary(place, _, _)
            | Expr::Binary(place, _, _, _) => *place,
        }
    }

    /// How loosely its outermost operator binds; 0 where none stands between operands.
    pub fn level(&self) -> u32
        ensures value { result ≡ loose (tree_of self.now) }
    {
        match self {
            Expr::Binary(_, op, _, _) => op.level(),
            _ => 0,
        }
    }
}
