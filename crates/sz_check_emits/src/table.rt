//! Declarations of tables.
ghost use Rattle.std.specs.Prelude.{◌≡◌, IfOk, map as each};
ghost use Rattle.std.specs.Option.{option_map};
ghost use Rattle.sz_types.specs.Seen.{seen};
ghost use Rattle.sz_types.specs.SeenTables.{seen_table};
ghost use Rattle.sz_tree.specs.View.{elem_of, table_of};
ghost use Rattle.sz_check_rules.specs.JudgingPrograms.{kind_of, has_limit, limit_of, judge_elems, judge_weight, judge_types, allowed, judge_table_declaration};
ghost use Rattle.sz_check_rules.specs.Refusals.{no_kind};
ghost use Rattle.sz_check_emits.specs.Tabling.{types_of, made_of, IsLimit};
ghost use Rattle.sz_check_names.specs.Knowledge.{blocks_of};
ghost use Rattle.sz_check_names.specs.Outcome.{Judges, Stops};

use std::alloc::{AllocError, Global};
use sz_check_names::{Cause, JudgeError, Known, Verdict, beside, judge_type};
use sz_core::is_allowed;
use sz_tree::{Elem, Name, Table};
use sz_types::{TableDecl, TableKind, Text, Ty, Tys};

// No table is of this kind: it is unknown, or left out.
fn no_kind(alloc: Global, name: &Name) -> JudgeError
    ensures value { Stops {Y = Unit} result (no_kind name.now) }
{
    let word = name.text().as_bytes();
    let is_left_out = word == b"sample".as_slice()
        || word == b"weightedsample".as_slice()
        || word == b"distinctsample".as_slice()
        || word == b"quantile".as_slice()
        || word == b"top".as_slice()
        || word == b"unique".as_slice()
        || word == b"inversehistogram".as_slice()
        || word == b"text".as_slice()
        || word == b"recordio".as_slice()
        || word == b"mrcounter".as_slice();
    let cause = if is_left_out {
        Cause::LeftOut
    } else {
        Cause::UnknownName
    };
    JudgeError::of(alloc, cause, name)
}

// The kind of table that a word is.
fn kind_of(alloc: Global, name: &Name) -> Verdict<TableKind>
    ensures value { Judges (λ x. x) result (kind_of name.now) }
{
    let word = name.text().as_bytes();
    if word == b"sum".as_slice() {
        return Ok(TableKind::Sum);
    }
    if word == b"maximum".as_slice() {
        return Ok(TableKind::Maximum);
    }
    if word == b"minimum".as_slice() {
        return Ok(TableKind::Minimum);
    }
    if word == b"set".as_slice() {
        return Ok(TableKind::Set);
    }
    if word == b"collection".as_slice() {
        return Ok(TableKind::Collection);
    }
    Err(no_kind(alloc, name))
}

// Whether a kind of table has a limit.
fn has_limit(kind: TableKind) -> bool
    ensures value { result ≡ has_limit kind }
{
    match kind {
        TableKind::Sum | TableKind::Collection => false,
        TableKind::Maximum | TableKind::Minimum | TableKind::Set => true,
    }
}

// The limit of a table by the number after its kind: 0 where the kind has none, and none where the number is missing, is one
// too many, or can be no limit.
fn limit_of(kind: TableKind, argument: Option<i64>) -> Option<u64>
    ensures value { result ≡ limit_of kind argument }
{
    match argument {
        None if has_limit(kind) => None,
        None => Some(0),
        Some(limit) if limit >= 0 && has_limit(kind) => Some(limit as u64),
        Some(_) => None,
    }
}

// The types of a table's indexes, in order.
fn judge_elems(known: &Known, trees: &[Elem]) -> Verdict<Vec<Ty>>
    ensures value { Judges (λ made. each seen made.items) result (judge_elems (blocks_of known.now) (each elem_of trees.now)) }
{
    let mut types = Vec::new(known.alloc());
    for tree in trees {
        let ty = judge_type(known, &tree.of)?;
        types.push(ty)?;
    }
    Ok(types)
}

// The type of a table's weights, where it has them.
fn judge_weight(known: &Known, tree: &Option<Elem>) -> Verdict<Option<Ty>>
    ensures value { Judges (option_map seen) result (judge_weight (blocks_of known.now) (option_map elem_of tree.now)) }
{
    match tree {
        Some(tree) => Ok(Some(judge_type(known, &tree.of)?)),
        None => Ok(None),
    }
}

// The types in a table's declaration.
#[derive(Drop)]
struct Types {
    indexes: Tys,
    element: Ty,
    weight: Option<Ty>,
}

// The types of the indexes, of the element and of the weights, in this order.
fn judge_types(known: &Known, tree: &Table) -> Verdict<Types>
    ensures value { Judges types_of result (judge_types (blocks_of known.now) (table_of tree.now)) }
{
    let indexes = judge_elems(known, tree.indexes.as_slice())?;
    let (element, indexes) = beside(judge_type(known, &tree.of.of), indexes)?;
    let weight = judge_weight(known, &tree.weight);
    let (weight, (indexes, element)) = beside(weight, (indexes, element))?;
    Ok(Types {
        indexes: Tys::from_vec(indexes),
        element,
        weight,
    })
}

// The limit as a declaration keeps it, or the refusal where it is wrong, or too large for each kind.
fn kept_limit(word: &Name, limit: Option<u64>) -> Verdict<u32>
    ensures value { IsLimit word.now limit result }
{
    match limit {
        Some(limit) => match u32::try_from(limit) {
            Ok(limit) => Ok(limit),
            Err(_) => Err(JudgeError::at(Cause::BadTable, word.place())),
        },
        None => Err(JudgeError::at(Cause::BadTable, word.place())),
    }
}

// A table of this kind, with this limit and these types.
fn made_table(
    alloc: Global,
    name: &Name,
    kind: TableKind,
    limit: u32,
    types: Types,
) -> Result<TableDecl, AllocError>
    ensures value { IfOk result (λ made. seen_table made ≡ made_of name.now kind limit (types_of types)) }
{
    let name = Text::from_str(alloc, name.text().as_str());
    let (name, types) = beside(name, types)?;
    Ok(TableDecl {
        name,
        kind,
        limit,
        indexes: types.indexes,
        element: types.element,
        weight: types.weight,
    })
}

// The table, if its kind allows it.
fn allowed(word: &Name, table: TableDecl) -> Verdict<TableDecl>
    ensures value { Judges seen_table result (allowed word.now (seen_table table)) }
{
    if is_allowed(&table) {
        Ok(table)
    } else {
        Err(JudgeError::at(Cause::BadTable, word.place()))
    }
}

/// The declaration of a table, or its first refusal: that of its kind, of its types, or that of a bad table where these don't go together.
pub fn judge_table_declaration(known: &Known, name: &Name, tree: &Table) -> Verdict<TableDecl>
    ensures value { Judges seen_table result (judge_table_declaration (blocks_of known.now) name.now (table_of tree.now)) }
{
    let alloc = known.alloc();
    let kind = kind_of(alloc, &tree.kind)?;
    let types = judge_types(known, tree)?;
    let limit = kept_limit(&tree.kind, limit_of(kind, tree.argument));
    let (limit, types) = beside(limit, types)?;
    allowed(&tree.kind, made_table(alloc, name, kind, limit, types)?)
}
