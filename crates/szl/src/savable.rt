//! Whether the tables of a program can be saved.
ghost use Rattle.std.specs.Prelude.{◌≡◌, List, ℕ, None, map, option_map, IfOk, IfErr, OnOk, Ok};
ghost use Rattle.sz_core.specs.Sound.{IsSound};
ghost use Rattle.sz_core.specs.Programs.{tables_of};
ghost use Rattle.sz_core.specs.View.{item_of};
ghost use Rattle.sz_mean.specs.Marked.{Marked, marked};
ghost use Rattle.sz_types.specs.SeenTables.{seen_table};
ghost use Rattle.sz_protofile_types.specs.Sound.{AreSound};
ghost use Rattle.sz_tree.specs.View.{program_of};
ghost use Rattle.sz_refusals.specs.Texts.{IsShort, HasStatements};
ghost use Rattle.szl.specs.Judging.{IsFailureOn};
ghost use Rattle.szl.specs.ProgramRuns.{CanSave};
ghost use Rattle.szl.specs.ProtoReads.{HaveTypeBytes};
ghost use Rattle.szl.specs.Savable.{first_high, too_deep, unless_high, savable};

use crate::failure::Failure;
use crate::reserved::{declared_in, runnable};
use std::alloc::Global;
use sz_check_rules::Cause;
use sz_core::{Item, Program};
use sz_protofile_types::NamedTypes;
use sz_refusals::{FIRST_PLACE, Refusal};
use sz_save::is_low;
use sz_save_names::tables_have_spellings;
use sz_tree::Tree;
use sz_types::{TableDecl, Text};
use sz_value::NoMemory;

/// The checked program of the tree, with these types known to it. With `save` it is refused where a table has too many levels for a saved
/// file, with `ignoring` where a table has the reserved name.
pub fn savable(
    alloc: Global,
    tree: &Tree,
    types: &NamedTypes,
    save: bool,
    ignoring: bool,
) -> Result<Program, Failure>
    requires sound { AreSound types.now }
    requires named { HaveTypeBytes types.now }
    ensures found { IfOk result (λ program. savable types.now save ignoring (program_of tree.now) ≡ Ok (marked program ignoring)) }
    ensures sound { IfOk result (λ program. IsSound program) }
    ensures spelled { (text : List ℕ) → IsShort text → HasStatements text (program_of tree.now)
        → IfOk result (λ program. CanSave save (marked program ignoring)) }
    ensures refused { IfErr result (λ failure. IsFailureOn (savable types.now save ignoring (program_of tree.now)) failure) }
{
    let program = runnable(alloc, tree, types, ignoring)?;
    if save {
        unless_high(alloc, tree, &program)?;
    }
    tables_have_spellings();
    Ok(program)
}

/// Refuses a program that has a table which a saved file can't hold.
fn unless_high(alloc: Global, tree: &Tree, program: &Program) -> Result<(), Failure>
    ensures ok { OnOk result (first_high (tables_of program.now.items) ≡ None) }
    ensures refused { (marked : Marked) → IfErr result
        (λ failure. IsFailureOn (unless_high (program_of tree.now) (first_high (tables_of program.now.items)) marked) failure) }
{
    match first_high(program.items()) {
        Some(table) => Err(Failure::Refused(too_deep(alloc, tree, table)?)),
        None => Ok(()),
    }
}

/// The first of the program's tables that a saved file can't hold, as the type of an index or of its elements has too many levels.
fn first_high(items: &[Item]) -> Option<&TableDecl>
    ensures value { option_map (λ table. seen_table table.now) result ≡ first_high (tables_of (map item_of items.now)) }
{
    for item in items {
        if let Item::Table(table) = item
            && !is_low(table)
        {
            return Some(table);
        }
    }
    None
}

/// The refusal of a table that a saved file can't hold.
fn too_deep(alloc: Global, tree: &Tree, table: &TableDecl) -> Result<Refusal, NoMemory>
    ensures value { IfOk result (λ refusal. refusal ≡ too_deep (program_of tree.now) (seen_table table.now)) }
{
    let name = Text::from_str(alloc, table.name.as_str())?;
    let place = declared_in(tree, table.name.as_str()).unwrap_or(FIRST_PLACE);
    Ok(Refusal {
        cause: Cause::TypeTooDeep,
        place,
        name: Some(name),
    })
}
