//! The fields of the messages of a file.
ghost use Rattle.std.specs.Prelude.{◌≡◌, [], IfOk, OnOk, ◌++◌};
ghost use Rattle.sz_protofile.specs.Names.{spelled};
ghost use Rattle.sz_protofile.specs.Fields.{field_in, field_by, fields_in};
ghost use Rattle.sz_protofile.specs.Types.{all_fields};

use crate::messages::message_names;
use crate::sort::sort_of;
use std::alloc::Global;
use sz_protofile::{FieldIn, FieldLine, Line};
use sz_protofile_names::{Known, Names, Open, full_of, known_in, spelled, step, unreserved};
use sz_types::{NoMemory, Text};

// A field inside these messages, as programs see it.
fn field_in(
    alloc: Global,
    bytes: &[u8],
    known: &Known,
    messages: &Names,
    around: &[Open],
    field: &FieldLine,
) -> Result<FieldIn, NoMemory>
    ensures value { IfOk result (λ made. made ≡ field_in (spelled bytes.now) known.now messages.now around.now field.now) }
{
    let owner = Text::from_str(alloc, full_of(around))?;
    let name = unreserved(alloc, spelled(bytes, &field.member.name))?;
    let sort = sort_of(alloc, known, messages, around, spelled(bytes, &field.word))?;
    Ok(FieldIn {
        owner,
        name: Text::from_string(name),
        number: field.member.number,
        repeated: field.repeated,
        sort,
    })
}

// Takes the field that a line has.
fn take_field(
    alloc: Global,
    bytes: &[u8],
    known: &Known,
    messages: &Names,
    fields: &mut Vec<FieldIn>,
    around: &[Open],
    line: &Line,
) -> Result<(), NoMemory>
    ensures ok { OnOk result (fields.new.items ≡ fields.old.items ++ field_by (spelled bytes.now) known.now messages.now around.now line.now) }
{
    match line {
        Line::Field(field) => {
            fields.push(field_in(alloc, bytes, known, messages, around, field)?)?;
        }
        Line::Passed
        | Line::Package(_)
        | Line::Enum(_)
        | Line::Message(_)
        | Line::End
        | Line::Unread(_) => {}
    }
    Ok(())
}

// The fields of lines, where these are the names of the messages.
fn fields_in(
    alloc: Global,
    bytes: &[u8],
    known: &Known,
    messages: &Names,
    lines: &[Line],
) -> Result<Vec<FieldIn>, NoMemory>
    ensures value { IfOk result (λ fields. fields.items ≡ fields_in (spelled bytes.now) known.now messages.now [] lines.now) }
{
    let mut fields = Vec::new(alloc);
    let mut around = Vec::new(alloc);
    for line in lines {
        take_field(
            alloc,
            bytes,
            known,
            messages,
            &mut fields,
            around.as_slice(),
            line,
        )?;
        step(alloc, bytes, &mut around, line)?;
    }
    Ok(fields)
}

/// The fields of all messages of the file that has these lines, in order.
pub fn all_fields(alloc: Global, bytes: &[u8], lines: &[Line]) -> Result<Vec<FieldIn>, NoMemory>
    ensures value { IfOk result (λ fields. fields.items ≡ all_fields (spelled bytes.now) lines.now) }
{
    let known = known_in(alloc, bytes, lines)?;
    let messages = message_names(alloc, bytes, lines)?;
    fields_in(alloc, bytes, &known, &messages, lines)
}
