//! Types as they are written.
ghost use Rattle.std.specs.Prelude.{◌≡◌, ◌∷◌, IfOk, OnOk, map as each};
ghost use Rattle.std.specs.Option.{option_map};
ghost use Rattle.sz_types.specs.Data.{fields_of};
ghost use Rattle.sz_types.specs.Seen.{seen};
ghost use Rattle.sz_tree.specs.Types.{tuple, proto, params_of, fields_of as trees_of};
ghost use Rattle.sz_tree.specs.View.{type_of, param_of, field_of};
ghost use Rattle.sz_check_rules.specs.JudgingTypes.{type_named, field_number, encoding_of, coding_of, judge_type, judge_parts, judge_fields};
ghost use Rattle.sz_check_names.specs.Knowledge.{means_of, blocks_of, IsOfTypes};
ghost use Rattle.sz_check_names.specs.Parts.{free_name, free_coding, coding_seen, judge_part, judge_field};
ghost use Rattle.sz_check_names.specs.Written.{shape_in, field_in};
ghost use Rattle.sz_check_names.specs.Outcome.{Judges};

use crate::error::{JudgeError, Verdict};
use crate::field_names::{TakenNames, TakenNumbers};
use crate::known::Known;
use crate::meaning::Means;
use crate::site::Site;
use crate::waiting::beside;
use crate::written::{NamedTypes, Written, WrittenField};
use std::alloc::Global;
use sz_check_rules::Cause;
use sz_tree::{Name, Param, ProtoField, TypeTree};
use sz_types::{Encoding, Place, Text, Ty};

// The type that a name stands for, which is one of these types.
fn type_named(types: &NamedTypes, name: &Name, means: Means<'_>) -> Verdict<Written>
    requires types { IsOfTypes types.now means }
    ensures value { Judges (shape_in types.now) result (type_named name.now (means_of means.entry)) }
{
    match means {
        Means::Type(ty) => Ok(Written::Named(ty.number)),
        _ => Err(JudgeError::of(types.alloc(), Cause::WrongKind, name)),
    }
}

// The most that the number of a field can be.
const MOST_FIELD_NUMBER: i64 = 536_870_911;

// The number of a message's field, if it can be one.
fn field_number(number: i64) -> Option<u32>
    ensures value { result ≡ field_number number }
{
    if 1 <= number && number <= MOST_FIELD_NUMBER {
        Some(number as u32)
    } else {
        None
    }
}

// The encoding that a word stands for; no word is the plain one.
fn encoding_of(label: &Option<Name>) -> Option<Encoding>
    ensures value { result ≡ encoding_of label.now }
{
    let Some(name) = label else {
        return Some(Encoding::Plain);
    };
    let word = name.text().as_bytes();
    if word == b"zigzag".as_slice() {
        return Some(Encoding::Zigzag);
    }
    if word == b"fixed32".as_slice() {
        return Some(Encoding::Fixed32);
    }
    if word == b"fixed64".as_slice() {
        return Some(Encoding::Fixed64);
    }
    None
}

// How a field of this type is coded, if its number is free and in range, and its encoding word fits the type.
#[tactic(auto, using(crate::proofs::SortLemmas::sort_is_field, crate::proofs::SortLemmas::sort_encodes))]
fn coding_of(
    used: &TakenNumbers,
    types: &NamedTypes,
    ty: &Written,
    number: Option<u32>,
    code: Option<Encoding>,
) -> Option<(u32, Encoding)>
    ensures value { option_map coding_seen result ≡ coding_of used.now (shape_in types.now ty.now) number code }
{
    let (Some(number), Some(code)) = (number, code) else {
        return None;
    };
    let sort = types.sort_of(ty);
    if !used.has(number) && sort.is_field() && sort.takes(code) {
        Some((number, code))
    } else {
        None
    }
}

// A name of a part or a field, which must be free, and is taken now.
fn take_name(alloc: Global, name: &Name, taken: &mut TakenNames) -> Verdict<Text>
    ensures value { Judges (λ text. text) result (free_name name.now taken.old) }
    ensures taken { OnOk result (taken.new ≡ name.now.text ∷ taken.old) }
{
    let text = name.text().as_str();
    if !taken.add(text)? {
        return Err(JudgeError::of(alloc, Cause::BadProto, name));
    }
    Ok(Text::from_str(alloc, text)?)
}

// The number and the encoding of a field, which it must have.
fn judge_coding(
    types: &NamedTypes,
    tree: &ProtoField,
    ty: &Written,
    used: &TakenNumbers,
) -> Verdict<(u32, Encoding)>
    ensures value { Judges coding_seen result
        (free_coding tree.now.name (coding_of used.now (shape_in types.now ty.now) (field_number tree.now.number)
        (encoding_of tree.now.label))) }
{
    let number = field_number(tree.number);
    match coding_of(used, types, ty, number, encoding_of(&tree.label)) {
        Some(coding) => Ok(coding),
        None => Err(JudgeError::of(types.alloc(), Cause::BadProto, &tree.name)),
    }
}

/// The type of a tree, as it is written, or its first refusal, at a name, a field or a part.
#[cycle(types)]
#[tactic(auto, unfolding(sz_check_rules::specs::JudgingTypes::judge_type))]
pub fn judge_written(known: &Known, tree: &TypeTree) -> Verdict<Written>
    ensures value { Judges (shape_in known.now.outside.types) result (judge_type (blocks_of known.now) (type_of tree.now)) }
{
    match tree {
        TypeTree::Basic(_, basic) => Ok(Written::Basic(*basic)),
        TypeTree::Named(name) => {
            let means = known.look_up(Site::Statement, name)?;
            type_named(known.types(), name, means)
        }
        TypeTree::Array(_, element) => Ok(Written::Array(judge_boxed(known, element)?)),
        TypeTree::Map(_, _, key, value) => {
            let key = judge_boxed(known, key)?;
            let value = judge_boxed(known, value)?;
            Ok(Written::Map(key, value))
        }
        TypeTree::Tuple(place, parts) => judge_tuple(known, *place, parts.as_slice()),
        TypeTree::Proto(place, fields) => judge_proto(known, *place, fields.as_slice()),
    }
}

/// The type of a tree, with all names written out, or its first refusal, at a name, a field or a part.
pub fn judge_type(known: &Known, tree: &TypeTree) -> Verdict<Ty>
    ensures value { Judges seen result (judge_type (blocks_of known.now) (type_of tree.now)) }
{
    let written = judge_written(known, tree)?;
    let ty = known.types().write_out(&written);
    drop(written);
    Ok(ty?)
}

// The type on the heap, as a part of another.
#[cycle(types)]
fn judge_boxed(known: &Known, tree: &TypeTree) -> Verdict<Box<Written>>
    ensures value { Judges (λ made. shape_in known.now.outside.types made.value) result
        (judge_type (blocks_of known.now) (type_of tree.now)) }
{
    Ok(Box::new(known.alloc(), judge_written(known, tree)?)?)
}

// A tuple type.
#[cycle(types)]
#[tactic(auto, using(crate::proofs::WrittenLemmas::shape_in_tuple), unfolding(sz_check_rules::specs::JudgingTypes::judge_type))]
fn judge_tuple(known: &Known, place: Place, trees: &[Param]) -> Verdict<Written>
    ensures value { Judges (shape_in known.now.outside.types) result
        (judge_type (blocks_of known.now) (tuple place (params_of (each param_of trees.now)))) }
{
    let mut taken = TakenNames::new(known.alloc())?;
    let parts = judge_parts(known, trees, &mut taken);
    drop(taken);
    Ok(Written::Tuple(parts?))
}

// A proto type.
#[cycle(types)]
#[tactic(auto, using(crate::proofs::WrittenLemmas::shape_in_proto), unfolding(sz_check_rules::specs::JudgingTypes::judge_type))]
fn judge_proto(known: &Known, place: Place, trees: &[ProtoField]) -> Verdict<Written>
    ensures value { Judges (shape_in known.now.outside.types) result
        (judge_type (blocks_of known.now) (proto place (trees_of (each field_of trees.now)))) }
{
    let mut taken = TakenNames::new(known.alloc())?;
    let mut used = TakenNumbers::new(known.alloc());
    let fields = judge_fields(known, trees, &mut taken, &mut used);
    drop(taken);
    drop(used);
    Ok(Written::Proto(fields?))
}

// The next part of a tuple, whose name must be free.
#[cycle(types)]
fn judge_part(known: &Known, tree: &Param, taken: &mut TakenNames) -> Verdict<WrittenField>
    ensures value { Judges (field_in known.now.outside.types) result
        (judge_part (blocks_of known.now) taken.old tree.now.name (type_of tree.now.of)) }
    ensures taken { IfOk result (λ made. taken.new ≡ made.name ∷ taken.old) }
{
    let ty = judge_written(known, &tree.of)?;
    let (name, ty) = beside(take_name(known.alloc(), &tree.name, taken), ty)?;
    Ok(WrittenField {
        name,
        ty,
        number: 0,
        code: Encoding::Plain,
    })
}

// The parts of a tuple: each is judged whole before the next.
#[cycle(types)]
fn judge_parts(known: &Known, trees: &[Param], taken: &mut TakenNames) -> Verdict<Vec<WrittenField>>
    ensures value { Judges (λ made. fields_of (each (field_in known.now.outside.types) made.items)) result
        (judge_parts (blocks_of known.now) taken.old (params_of (each param_of trees.now))) }
{
    let mut parts = Vec::new(known.alloc());
    for tree in trees {
        parts.push(judge_part(known, tree, taken)?)?;
    }
    Ok(parts)
}

// The next field of a message, whose name and number must be free.
#[cycle(types)]
fn judge_field(
    known: &Known,
    tree: &ProtoField,
    taken: &mut TakenNames,
    used: &mut TakenNumbers,
) -> Verdict<WrittenField>
    ensures value { Judges (field_in known.now.outside.types) result
        (judge_field (blocks_of known.now) taken.old used.old (field_of tree.now)) }
    ensures taken { IfOk result (λ made. taken.new ≡ made.name ∷ taken.old) }
    ensures used { IfOk result (λ made. used.new ≡ made.number ∷ used.old) }
{
    let ty = judge_written(known, &tree.of)?;
    let coding = judge_coding(known.types(), tree, &ty, used);
    let ((number, code), ty) = beside(coding, ty)?;
    let (name, ty) = beside(take_name(known.alloc(), &tree.name, taken), ty)?;
    let (_, (name, ty)) = beside(used.add(number), (name, ty))?;
    Ok(WrittenField {
        name,
        ty,
        number,
        code,
    })
}

// The fields of a message.
#[cycle(types)]
fn judge_fields(
    known: &Known,
    trees: &[ProtoField],
    taken: &mut TakenNames,
    used: &mut TakenNumbers,
) -> Verdict<Vec<WrittenField>>
    ensures value { Judges (λ made. fields_of (each (field_in known.now.outside.types) made.items)) result
        (judge_fields (blocks_of known.now) taken.old used.old (trees_of (each field_of trees.now))) }
{
    let mut fields = Vec::new(known.alloc());
    for tree in trees {
        fields.push(judge_field(known, tree, taken, used)?)?;
    }
    Ok(fields)
}
