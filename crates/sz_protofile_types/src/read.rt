//! Whole files.
ghost use Rattle.std.specs.Prelude.{◌≡◌, ◌≤◌, List, [], length, IfOk, IfErr, MatchResult};
ghost use Rattle.sz_protofile.specs.Reading.{Spelling};
ghost use Rattle.sz_protofile.specs.declared.line.Line.{Line as Part};
ghost use Rattle.sz_protofile.specs.declared.fault.Fault.{Fault as Wrong};
ghost use Rattle.sz_protofile.specs.Names.{spelled, messages_in};
ghost use Rattle.sz_protofile.specs.Types.{TypeShape, all_fields, HasTypes, IsRefused};
ghost use Rattle.sz_protofile_names.specs.declared.error.ProtoError.TheVariants.{NoMemory as no_memory};
ghost use Rattle.sz_protofile_names.specs.Outcome.{OrNoMemory};
ghost use Rattle.sz_protofile_types.specs.Making.{AreMadeIfFew, AreFound};

use crate::count::are_few;
use crate::fields::all_fields;
use crate::make::make_types;
use crate::messages::messages_in;
use crate::named::NamedTypes;
use crate::order::in_order;
use crate::{Ranks, message_ranks};
use std::alloc::Global;
use sz_protofile::{FieldIn, Line, Scope};
use sz_protofile_names::{ProtoError, sound_lines};
use sz_types::{NoMemory, Place};

// The types of these messages, made of their fields by rising ranks, or None where they have too many fields together. These are counted
// before any type is made.
fn made_if_few(
    alloc: Global,
    ranks: &Ranks,
    ordered: &[FieldIn],
    messages: &[Scope],
) -> Result<Option<NamedTypes>, NoMemory>
    ensures value { IfOk result (λ found. AreMadeIfFew ranks.now ordered.now messages.now found) }
{
    if are_few(alloc, ranks, ordered, messages)? {
        Ok(Some(make_types(alloc, ranks, ordered, messages)?))
    } else {
        Ok(None)
    }
}

// The types of a file's messages, made of its fields.
fn types_by(
    alloc: Global,
    fields: Vec<FieldIn>,
    messages: &[Scope],
) -> Result<Option<NamedTypes>, NoMemory>
    ensures value { IfOk result (λ found. (text : Spelling) (all : List Part) → messages.now ≡ messages_in text [] all
        → fields.items ≡ all_fields text all → AreFound text all found) }
{
    let ranks = message_ranks(alloc, fields.as_slice())?;
    let ordered = in_order(fields, &ranks)?;
    made_if_few(alloc, &ranks, ordered.as_slice(), messages)
}

// The types of the file with these lines, or None where they have too many fields together.
fn types_of(alloc: Global, bytes: &[u8], lines: &[Line]) -> Result<Option<NamedTypes>, NoMemory>
    ensures value { IfOk result (λ found. AreFound (spelled bytes.now) lines.now found) }
{
    let messages = messages_in(alloc, bytes, lines)?;
    let fields = all_fields(alloc, bytes, lines)?;
    types_by(alloc, fields, messages.as_slice())
}

/// The types of the messages of a `.proto` file of at most 1,048,576 bytes, with their names, in the order in which the messages begin.
///
/// A message has the type `proto` of its fields, in order. Not kept are fields of numbers that aren't whole, groups, maps, members of
/// `oneof`, and each field whose message reaches the one in which it stands. A message inside others is called by the names of all of
/// them with an underscore between, and a reserved word gets an underscore more.
///
/// The numbers of its refusals, of which the first counts: 2, where the file isn't in the grammar; 3, where a message, an enum or a
/// field has a name that is there before; 4, where a field's number is out of range or there before; 5, where a word for a type means
/// nothing; and 6, at the first place of the file, where the types have together more than 100,000 fields, those of the types inside
/// them counted each time. Of 3 to 5 the first in the file counts, and of one field the least number.
pub fn read_proto(alloc: Global, bytes: &[u8]) -> Result<NamedTypes, ProtoError>
    requires { length bytes.now ≤ 1048576 }
    // What is found are the types of the file.
    ensures found { IfOk result (λ types. HasTypes bytes.now types) }
    // These are found, unless memory runs out.
    ensures only_found { (answer : List TypeShape) → HasTypes bytes.now answer → MatchResult result (λ types. types ≡ answer) (λ e. e ≡ no_memory) }

    // A refusal is the file's, unless memory ran out.
    ensures refused { IfErr result (λ e. OrNoMemory e (IsRefused bytes.now)) }
    // What the file is refused for is the answer, unless memory runs out.
    ensures only_refused { (f : Wrong) → IsRefused bytes.now f → MatchResult result (λ _. ⊥) (λ e. OrNoMemory e (λ g. g ≡ f)) }
{
    let lines = sound_lines(alloc, bytes)?;
    match types_of(alloc, bytes, lines.as_slice())? {
        Some(types) => Ok(types),
        None => Err(ProtoError::Refused {
            number: 6,
            place: Place { line: 1, column: 1 },
            name: None,
        }),
    }
}
