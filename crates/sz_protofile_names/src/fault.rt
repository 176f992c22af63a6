//! What is wrong with a file.
ghost use Rattle.std.specs.Prelude.{◌≡◌, ◌++◌, ◌∷◌, [], None as nothing, IfOk, true, not, ◌&&◌};
ghost use Rattle.std.specs.Option.{option_or};
ghost use Rattle.std.specs.String.{string_bytes};
ghost use Rattle.sz_protofile.specs.Names.{spelled, unreserved, called};
ghost use Rattle.sz_protofile.specs.Faults.{breaks, has_number, name_fault, field_fault, in_range, number_fault, member_fault, type_fault, fault_of, first_fault, file_fault, named, numbered, with_member, with_line, nothing_before};
ghost use Rattle.sz_protofile_names.specs.Seen.{seen_before, with_declared_line, with_around};

use crate::before::Before;
use crate::known::{Known, known_in};
use crate::members::{FieldNames, FieldNumbers};
use crate::names::Names;
use crate::scopes::{Open, called, full_of, step};
use crate::words::{scalar_of, spelled, unreserved};
use std::alloc::Global;
use sz_protofile::{Fault, FieldLine, Line, Member, Scope};
use sz_protofile_lex::Token;
use sz_types::{NoMemory, Text};

// The rule of this number is broken by this token, with the name in it.
fn breaks(number: u8, token: &Token, name: String) -> Option<Fault>
    ensures value { result ≡ breaks number token.now (string_bytes name) }
{
    Some(Fault {
        number,
        place: token.place,
        name: Some(Text::from_string(name)),
    })
}

// A message or an enum: takes its name, as programs see it, unless it is there before.
fn take_name(
    alloc: Global,
    bytes: &[u8],
    around: &[Open],
    names: &mut Names,
    token: &Token,
) -> Result<Option<Fault>, NoMemory>
    ensures fault { IfOk result (λ fault. fault ≡ name_fault (spelled bytes.now) around.now names.old token.now) }
    ensures taken { IfOk result (λ fault. fault ≡ nothing → names.new ≡ names.old ++ unreserved (called around.now (spelled bytes.now token.now)).joined ∷ []) }
{
    let Scope { full: _, joined } = called(alloc, around, spelled(bytes, token))?;
    let name = unreserved(alloc, joined.as_str())?;
    if names.has(name.as_str()) {
        return Ok(breaks(3, token, name));
    }
    names.add(name)?;
    Ok(None)
}

// A field: takes its name, as programs see it, unless the message has it before.
fn take_field_name(
    alloc: Global,
    bytes: &[u8],
    owner: &str,
    fields: &mut FieldNames,
    token: &Token,
) -> Result<Option<Fault>, NoMemory>
    ensures fault { IfOk result (λ fault. fault ≡ field_fault (spelled bytes.now) owner.now fields.old token.now) }
    ensures taken { IfOk result (λ fault. fault ≡ nothing → fields.new ≡ fields.old ++ named owner.now (unreserved (spelled bytes.now token.now)) ∷ []) }
{
    let name = unreserved(alloc, spelled(bytes, token))?;
    let copy = String::from_str(alloc, name.as_str())?;
    if fields.add(String::from_str(alloc, owner)?, copy)? {
        Ok(None)
    } else {
        Ok(breaks(3, token, name))
    }
}

// Whether a field may have the number.
fn in_range(number: u32) -> bool
    ensures value { result ≡ in_range number }
{
    0 < number && number < 1 << 29
}

// Enters the number of a field, unless it is out of range or the message has it before, and says whether it did.
fn enter_number(
    alloc: Global,
    owner: &str,
    numbers: &mut FieldNumbers,
    number: u32,
) -> Result<bool, NoMemory>
    ensures free { IfOk result (λ free. free ≡ (in_range number && not (has_number owner.now number numbers.old))) }
    ensures taken { IfOk result (λ free. free ≡ true → numbers.new ≡ numbers.old ++ numbered owner.now number ∷ []) }
{
    if in_range(number) {
        numbers.add(String::from_str(alloc, owner)?, number)
    } else {
        Ok(false)
    }
}

// A field: takes its number, unless it is out of range or the message has it before.
fn take_number(
    alloc: Global,
    bytes: &[u8],
    owner: &str,
    numbers: &mut FieldNumbers,
    member: &Member,
) -> Result<Option<Fault>, NoMemory>
    ensures fault { IfOk result (λ fault. fault ≡ number_fault (spelled bytes.now) owner.now numbers.old member.now) }
    ensures taken { IfOk result (λ fault. fault ≡ nothing → numbers.new ≡ numbers.old ++ numbered owner.now member.now.number ∷ []) }
{
    if enter_number(alloc, owner, numbers, member.number)? {
        Ok(None)
    } else {
        let name = unreserved(alloc, spelled(bytes, &member.name))?;
        Ok(breaks(4, &member.name, name))
    }
}

// A field: takes its name and its number.
fn take_member(
    alloc: Global,
    bytes: &[u8],
    before: &mut Before,
    member: &Member,
) -> Result<Option<Fault>, NoMemory>
    ensures fault { IfOk result (λ fault. fault ≡ member_fault (spelled bytes.now) (seen_before before.old) member.now) }
    ensures taken { IfOk result (λ fault. fault ≡ nothing → seen_before before.new ≡ with_member (spelled bytes.now) (seen_before before.old) member.now) }
{
    let owner = full_of(before.around.as_slice());
    match take_field_name(alloc, bytes, owner, &mut before.fields, &member.name)? {
        Some(fault) => Ok(Some(fault)),
        None => take_number(alloc, bytes, owner, &mut before.numbers, member),
    }
}

// A word for a type: it is that of a scalar, or it means something.
fn type_fault(
    alloc: Global,
    bytes: &[u8],
    known: &Known,
    around: &[Open],
    token: &Token,
) -> Result<Option<Fault>, NoMemory>
    ensures fault { IfOk result (λ fault. fault ≡ type_fault (spelled bytes.now) known.now around.now token.now) }
{
    let word = spelled(bytes, token);
    if scalar_of(word).is_some() {
        return Ok(None);
    }
    match known.looked_up(alloc, around, word)? {
        Some(_) => Ok(None),
        None => Ok(breaks(5, token, String::from_str(alloc, word)?)),
    }
}

// A line that declares a message or an enum of this name.
fn take_declared(
    alloc: Global,
    bytes: &[u8],
    before: &mut Before,
    line: &Line,
    name: &Token,
) -> Result<Option<Fault>, NoMemory>
    ensures fault { IfOk result (λ fault. fault ≡ name_fault (spelled bytes.now) before.old.around.items before.old.names name.now) }
    ensures taken { IfOk result (λ fault. fault ≡ nothing → seen_before before.new
        ≡ with_declared_line (spelled bytes.now) (seen_before before.old) line.now name.now) }
{
    match take_name(
        alloc,
        bytes,
        before.around.as_slice(),
        &mut before.names,
        name,
    )? {
        Some(fault) => Ok(Some(fault)),
        None => {
            step(alloc, bytes, &mut before.around, line)?;
            Ok(None)
        }
    }
}

// A field: its name, its number and its type.
fn take_field(
    alloc: Global,
    bytes: &[u8],
    known: &Known,
    before: &mut Before,
    field: &FieldLine,
) -> Result<Option<Fault>, NoMemory>
    ensures fault { IfOk result (λ fault. fault ≡ option_or (member_fault (spelled bytes.now) (seen_before before.old) field.now.member)
        (type_fault (spelled bytes.now) known.now before.old.around.items field.now.word)) }
    ensures taken { IfOk result (λ fault. fault ≡ nothing → seen_before before.new
        ≡ with_member (spelled bytes.now) (seen_before before.old) field.now.member) }
{
    match take_member(alloc, bytes, before, &field.member)? {
        Some(fault) => Ok(Some(fault)),
        None => type_fault(alloc, bytes, known, before.around.as_slice(), &field.word),
    }
}

// The end of a message, or a line that means nothing here.
fn take_other(
    alloc: Global,
    bytes: &[u8],
    before: &mut Before,
    line: &Line,
) -> Result<Option<Fault>, NoMemory>
    ensures none { IfOk result (λ fault. fault ≡ nothing) }
    ensures taken { IfOk result (λ fault. seen_before before.new ≡ with_around (spelled bytes.now) (seen_before before.old) line.now) }
{
    step(alloc, bytes, &mut before.around, line)?;
    Ok(None)
}

// A line: what is wrong with it, or else it joins those before.
fn take_line(
    alloc: Global,
    bytes: &[u8],
    known: &Known,
    before: &mut Before,
    line: &Line,
) -> Result<Option<Fault>, NoMemory>
    ensures fault { IfOk result (λ fault. fault ≡ fault_of (spelled bytes.now) known.now (seen_before before.old) line.now) }
    ensures taken { IfOk result (λ fault. fault ≡ nothing → seen_before before.new ≡ with_line (spelled bytes.now) (seen_before before.old) line.now) }
{
    match line {
        Line::Message(name) | Line::Enum(name) => take_declared(alloc, bytes, before, line, name),
        Line::Field(field) => take_field(alloc, bytes, known, before, field),
        Line::Unread(member) => take_member(alloc, bytes, before, member),
        Line::Passed | Line::Package(_) | Line::End => take_other(alloc, bytes, before, line),
    }
}

// The first thing that is wrong with the lines.
fn first_fault(
    alloc: Global,
    bytes: &[u8],
    known: &Known,
    lines: &[Line],
) -> Result<Option<Fault>, NoMemory>
    ensures value { IfOk result (λ fault. fault ≡ first_fault (spelled bytes.now) known.now nothing_before lines.now) }
{
    let mut before = Before::new(alloc);
    for line in lines {
        if let Some(fault) = take_line(alloc, bytes, known, &mut before, line)? {
            return Ok(Some(fault));
        }
    }
    Ok(None)
}

/// The first thing that is wrong with the file that has these lines.
pub fn file_fault(alloc: Global, bytes: &[u8], lines: &[Line]) -> Result<Option<Fault>, NoMemory>
    ensures value { IfOk result (λ fault. fault ≡ file_fault (spelled bytes.now) lines.now) }
{
    let known = known_in(alloc, bytes, lines)?;
    first_fault(alloc, bytes, &known, lines)
}
