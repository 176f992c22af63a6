//! The syntax tree of a program.
#![tactic(auto)]

mod expr;
mod literal;
mod name;
mod operator;
mod stmt;
mod tree;
mod types;

pub use expr::{Expr, Pair};
pub use literal::Literal;
pub use name::Name;
pub use operator::{BinaryOp, UnaryOp};
pub use stmt::{Elem, First, Path, Quantifier, Quantity, Simple, Step, Stmt, Table};
pub use tree::Tree;
pub use types::{BasicType, Param, ProtoField, TypeTree};
