//! Programs with types known round them.
ghost use Rattle.std.specs.Prelude.{◌≡◌, ◌∷◌, List, [], IsFalse, IsTrue, map as each, Ok as good};
ghost use Rattle.sz_tree.specs.Statements.{Stm};
ghost use Rattle.sz_tree.specs.View.{program_of};
ghost use Rattle.sz_core.specs.WellFormed.{are_distinct_texts};
ghost use Rattle.sz_protofile.specs.Types.{TypeShape};
ghost use Rattle.sz_protofile_types.specs.Sound.{AreSound};
ghost use Rattle.sz_check_rules.specs.JudgingPrograms.{judge_program};
ghost use Rattle.sz_check_rules.specs.Names.{has};
ghost use Rattle.sz_check_names.specs.Knowledge.{scene_of};
ghost use Rattle.sz_check_names.specs.Outcome.{Judges};
ghost use Rattle.sz_check_rules.specs.JudgingWithTypes.{block_of_types, known_with, judge_program_with};
ghost use Rattle.sz_check_rules.specs.TypeStatements.{DeclareTypes, DeclaresNone, written_first};
ghost use Rattle.sz_check.specs.Answering.{Answers};
ghost use Rattle.sz_check.specs.RoundTypes.{named_shapes, with_named_type};
ghost use Rattle.sz_check.specs.Top.{core_seen};

use crate::error::CheckError;
use crate::program::judge_all;
use crate::top::Top;
use std::alloc::Global;
use sz_check_names::{Known, Verdict, Written};
use sz_check_rules::{judged_programs_are_sound, types_may_be_written_first};
use sz_core::{Item, Program};
use sz_protofile_types::{NamedType, NamedTypes};
use sz_tree::{Name, Tree};
use sz_types::{Place, Text, Tys, copy_ty};

// A type under its name, which the innermost block doesn't have. No refusal can name its place.
fn add_type(known: &mut Known, named: &NamedType) -> Verdict<()>
    requires free { IsFalse (has named.now.name known.old.innermost) }
    ensures value { Judges (λ _. scene_of known.new) result (good (with_named_type named.now known.old)) }
{
    let written = Written::Whole(copy_ty(known.alloc(), &named.ty)?);
    let text = Text::from_str(known.alloc(), named.name.as_str())?;
    let name = Name::new(Place { line: 1, column: 1 }, text);
    known.declare_type(&name, written)
}

// Types under their names, in a block that has no names yet.
fn add_types(known: &mut Known, types: &[NamedType]) -> Verdict<()>
    requires apart { IsTrue (are_distinct_texts (each (λ (t : TypeShape). t.name) types.now)) }
    requires empty { known.old.innermost ≡ [] }
    ensures value { Judges (λ _. scene_of known.new) result
        (good (record { blocks = block_of_types (named_shapes types.now) ∷ known.old.outside.seen; locals = known.old.locals })) }
{
    for named in types {
        add_type(known, named)?;
    }
    Ok(())
}

// What is known at first: the types' names, in a block between the predeclared names and the program's own.
fn known_with(alloc: Global, types: &NamedTypes) -> Verdict<Known>
    requires sound { AreSound types.now }
    ensures value { Judges scene_of result (good (known_with (named_shapes types.now)).scene) }
{
    let mut known = Known::predeclared(alloc)?;
    add_types(&mut known, types.as_slice())?;
    known.open()?;
    Ok(known)
}

// The items of a program, in order, and the types of the record's variables.
fn judge_items(alloc: Global, tree: &Tree, types: &NamedTypes) -> Verdict<(Vec<Item>, Tys)>
    requires sound { AreSound types.now }
    ensures value { Judges core_seen result (judge_program_with (named_shapes types.now) (program_of tree.now)) }
{
    let mut top = Top {
        known: known_with(alloc, types)?,
        tables: 0,
        statics: 0,
        functions: Vec::new(alloc),
    };
    let items = judge_all(&mut top, tree.statements.as_slice())?;
    Ok((items, top.known.into_locals()))
}

// The checked program, or its first refusal.
#[tactic(auto, using(crate::proofs::ProgramLemmas::answers_stopped))]
fn judge_program_with(alloc: Global, tree: &Tree, types: &NamedTypes) -> Result<Program, CheckError>
    requires sound { AreSound types.now }
    ensures value { Answers result (judge_program_with (named_shapes types.now) (program_of tree.now)) }
{
    let (items, locals) = judge_items(alloc, tree, types)?;
    judged_programs_are_sound();
    Ok(Program::new(items, locals))
}

/// The checked program that the tree stands for where these types are known by their names, or its first refusal.
///
/// The names stand in a block between the predeclared names and the program's own, so that a program may declare them itself. They must
/// differ, and the types must be well formed proto types, as those of a `.proto` file are.
pub fn check_with(alloc: Global, tree: &Tree, types: &NamedTypes) -> Result<Program, CheckError>
    requires sound { AreSound types.now }
    ensures value { Answers result (judge_program_with (named_shapes types.now) (program_of tree.now)) }
    // Where the program declares none of the names at its top level, that is what it is with statements in front that declare the types.
    ensures written_first { (statements : List Stm) → DeclareTypes statements (named_shapes types.now)
        → DeclaresNone (each (λ (t : TypeShape). t.name) types.now) (program_of tree.now)
        → Answers result (judge_program (written_first statements (program_of tree.now))) }
{
    types_may_be_written_first();
    judge_program_with(alloc, tree, types)
}
