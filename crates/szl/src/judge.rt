//! What a program's text is: its tree, and the checked program.
ghost use Rattle.std.specs.Prelude.{◌≡◌, ◌≤◌, length, IfOk, IfErr, Ok};
ghost use Rattle.sz_core.specs.Sound.{IsSound};
ghost use Rattle.sz_protofile_types.specs.Sound.{AreSound};
ghost use Rattle.sz_tree.specs.View.{program_of};
ghost use Rattle.szl.specs.Checking.{checked};
ghost use Rattle.sz_refusals.specs.Texts.{HasStatements, most_program_bytes};
ghost use Rattle.szl.specs.Judging.{IsFailureOf, IsFailureOn};

use crate::failure::Failure;
use crate::heights::Stack;
use std::alloc::Global;
use sz_check::{CheckError, check_with};
use sz_check_rules::Cause;
use sz_core::Program;
use sz_lex::lex;
use sz_parse::parse;
use sz_protofile_types::NamedTypes;
use sz_refusals::Refusal;
use sz_tree::Tree;

/// The tree that the text spells. Where the stack isn't enough for its types, that counts as want of memory.
#[tactic(auto, using(crate::proofs::JudgeLemmas::unread_failure, crate::proofs::JudgeLemmas::stuck_failure, sz_refusals::proofs::ForCallers::has_statements))]
pub fn tree_in(alloc: Global, text: &[u8], stack: Stack) -> Result<Tree, Failure>
    requires short { length text.now ≤ most_program_bytes }
    ensures found { IfOk result (λ tree. HasStatements text.now (program_of tree)) }
    ensures refused { IfErr result (λ failure. IsFailureOf text.now failure) }
{
    let tokens = lex(alloc, text)?;
    let tree = parse(alloc, &tokens)?;
    if stack.holds(tokens.as_slice()) {
        Ok(tree)
    } else {
        Err(Failure::NoMemory)
    }
}

/// The checked program that the tree is where these types are known.
#[tactic(auto, unfolding(crate::specs::Checking::checked), using(sz_refusals::proofs::ForCallers::is_number, sz_refusals::proofs::ForCallers::refused_tree))]
pub fn checked(alloc: Global, tree: &Tree, types: &NamedTypes) -> Result<Program, Failure>
    requires sound { AreSound types.now }
    ensures found { IfOk result (λ program. checked types.now (program_of tree.now) ≡ Ok program) }
    ensures sound { IfOk result (λ program. IsSound program) }
    ensures refused { IfErr result (λ failure. IsFailureOn (checked types.now (program_of tree.now)) failure) }
{
    match check_with(alloc, tree, types) {
        Ok(program) => {
            // A checked program tells that it is sound.
            let _ = program.items();
            Ok(program)
        }
        Err(
            CheckError::Refused {
                number,
                place,
                name,
            },
        ) => Err(Failure::Refused(Refusal {
            cause: Cause::with_number(number),
            place,
            name,
        })),
        Err(CheckError::NoMemory) => Err(Failure::NoMemory),
    }
}
