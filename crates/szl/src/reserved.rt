//! Whether a program can be run: one that is to ignore undefined values has no table of the name that the table of lines has.
ghost use Rattle.std.specs.Prelude.{◌≡◌, map, IfOk, IfErr, Ok};
ghost use Rattle.sz_core.specs.Sound.{IsSound};
ghost use Rattle.sz_mean.specs.Marked.{marked};
ghost use Rattle.sz_protofile_types.specs.Sound.{AreSound};
ghost use Rattle.sz_tree.specs.Statements.{stms_of};
ghost use Rattle.sz_tree.specs.View.{stm_of, program_of};
ghost use Rattle.szl.specs.Judging.{IsFailureOn};
ghost use Rattle.szl.specs.Reserved.{if_named, declared_by, declared_in, runnable};

use crate::failure::{Failure, refused};
use crate::judge::checked;
use std::alloc::Global;
use sz_check_rules::Cause;
use sz_core::Program;
use sz_protofile_types::NamedTypes;
use sz_tree::{Name, Stmt, Tree};
use sz_types::Place;

/// The name of the table that counts lines: a program that is to ignore undefined values declares no table of this name.
const RESERVED_NAME: &str = "_undefs";

/// The checked program of the tree, with these types known to it. With `ignoring` it is refused where a table has the reserved name.
pub fn runnable(
    alloc: Global,
    tree: &Tree,
    types: &NamedTypes,
    ignoring: bool,
) -> Result<Program, Failure>
    requires sound { AreSound types.now }
    ensures found { IfOk result (λ program. runnable types.now ignoring (program_of tree.now) ≡ Ok (marked program ignoring)) }
    ensures sound { IfOk result (λ program. IsSound program) }
    ensures refused { IfErr result (λ failure. IsFailureOn (runnable types.now ignoring (program_of tree.now)) failure) }
{
    let program = checked(alloc, tree, types)?;
    match declared_in(tree, RESERVED_NAME) {
        Some(place) if ignoring => Err(refused(Cause::ReservedName, place)),
        _ => Ok(program),
    }
}

/// The place of the first statement of the tree that declares a table of this name.
pub fn declared_in(tree: &Tree, name: &str) -> Option<Place>
    ensures value { result ≡ declared_in name.now (program_of tree.now) }
{
    declared_among(tree.statements.as_slice(), name)
}

// The place of the first of these statements that does so.
fn declared_among(statements: &[Stmt], name: &str) -> Option<Place>
    ensures value { result ≡ declared_in name.now (stms_of (map stm_of statements.now)) }
{
    for statement in statements {
        if let Some(place) = declared_by(statement, name) {
            return Some(place);
        }
    }
    None
}

// The place of the statement, if it declares a table of this name.
fn declared_by(statement: &Stmt, name: &str) -> Option<Place>
    ensures value { result ≡ declared_by name.now (stm_of statement.now) }
{
    match statement {
        Stmt::Table(declared, _) => if_named(declared, name),
        Stmt::Empty(_)
        | Stmt::Block(_, _)
        | Stmt::Declare(_, _, _)
        | Stmt::Define(_, _)
        | Stmt::Static(_, _, _, _)
        | Stmt::Type(_, _, _)
        | Stmt::Function(_, _, _, _)
        | Stmt::Simple(_)
        | Stmt::If(_, _, _, _)
        | Stmt::While(_, _, _)
        | Stmt::DoWhile(_, _, _)
        | Stmt::For(_, _, _, _, _)
        | Stmt::Break(_)
        | Stmt::Continue(_)
        | Stmt::Return(_, _)
        | Stmt::Emit(_, _, _, _, _)
        | Stmt::When(_, _, _, _) => None,
    }
}

// The place of a declared name, if it is this one.
fn if_named(declared: &Name, name: &str) -> Option<Place>
    ensures value { result ≡ if_named name.now declared.now }
{
    if declared.text().as_str() == name {
        Some(declared.place())
    } else {
        None
    }
}
