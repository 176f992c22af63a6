//! Whether a text is a program, and why it isn't one.
ghost use Rattle.std.specs.Prelude.{◌≡◌, ◌≤◌, length, IfOk, IfErr, IfSome, IfNone, OnOk, Ok};
ghost use Rattle.sz_tree.specs.View.{program_of};
ghost use Rattle.sz_refusals.specs.Texts.{most_program_bytes, HasStatements};
ghost use Rattle.szl_explain_judge.specs.Refusing.{checked, IsProgram, IsRefused, IsUnreadStop, IsStopOf, IsStopOn};

use crate::stop::Stop;
use std::alloc::{AllocError, Global};
use sz_check::{CheckError, check};
use sz_check_rules::Cause;
use sz_core::Program;
use sz_lex::lex;
use sz_parse::parse;
use sz_refusals::{FIRST_PLACE, MOST_PROGRAM_BYTES, Refusal};
use sz_tree::Tree;

/// The first refusal of the text, or nothing where it is a program.
pub fn refusal_in(alloc: Global, text: &[u8]) -> Result<Option<Refusal>, AllocError>
    ensures program { IfOk result (λ found. IfNone found (IsProgram text.now)) }
    ensures refused { IfOk result (λ found. IfSome found (IsRefused text.now)) }
{
    match judge(alloc, text) {
        Ok(()) => Ok(None),
        Err(Stop::Refused(refusal)) => Ok(Some(refusal)),
        Err(Stop::NoMemory) => Err(AllocError),
    }
}

/// Whether the text is a program: its first refusal, or want of memory, where it isn't.
#[tactic(auto, using(crate::proofs::JudgeLemmas::unread_is_stop, crate::proofs::JudgeLemmas::judged_is_stop, crate::proofs::JudgeLemmas::spelled_program))]
fn judge(alloc: Global, text: &[u8]) -> Result<(), Stop>
    ensures program { OnOk result (IsProgram text.now) }
    ensures refused { IfErr result (IsStopOf text.now) }
{
    if text.len() > MOST_PROGRAM_BYTES {
        return Err(Stop::Refused(Refusal::at(Cause::TooLong, FIRST_PLACE)));
    }
    let tree = tree_in(alloc, text)?;
    checked(alloc, &tree)?;
    Ok(())
}

/// The tree that the text spells.
#[tactic(auto, using(crate::proofs::JudgeLemmas::unread_stop, crate::proofs::JudgeLemmas::stuck_stop, sz_refusals::proofs::ForCallers::has_statements))]
fn tree_in(alloc: Global, text: &[u8]) -> Result<Tree, Stop>
    requires short { length text.now ≤ most_program_bytes }
    ensures found { IfOk result (λ tree. HasStatements text.now (program_of tree)) }
    ensures refused { IfErr result (λ stop. IsUnreadStop text.now stop) }
{
    let tokens = lex(alloc, text)?;
    let tree = parse(alloc, &tokens)?;
    Ok(tree)
}

/// The checked program that the tree is.
#[tactic(auto, unfolding(crate::specs::Refusing::checked), using(sz_refusals::proofs::ForCallers::is_number, sz_refusals::proofs::ForCallers::refused_tree))]
fn checked(alloc: Global, tree: &Tree) -> Result<Program, Stop>
    ensures found { IfOk result (λ program. checked (program_of tree.now) ≡ Ok program) }
    ensures refused { IfErr result (λ stop. IsStopOn (checked (program_of tree.now)) stop) }
{
    match check(alloc, tree) {
        Ok(program) => Ok(program),
        Err(
            CheckError::Refused {
                number,
                place,
                name,
            },
        ) => Err(Stop::Refused(Refusal {
            cause: Cause::with_number(number),
            place,
            name,
        })),
        Err(CheckError::NoMemory) => Err(Stop::NoMemory),
    }
}
