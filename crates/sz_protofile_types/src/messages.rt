//! The messages of a file.
ghost use Rattle.std.specs.Prelude.{◌≡◌, [], IfOk, OnOk, ◌++◌, option_to_list};
ghost use Rattle.sz_protofile.specs.Names.{spelled, message_by, messages_in};
ghost use Rattle.sz_protofile.specs.Lookup.{with_declared, message_names_in};

use std::alloc::Global;
use sz_protofile::{Line, Scope};
use sz_protofile_names::{Names, Open, called, spelled, step};
use sz_types::NoMemory;

// The message that begins with a line, if one does.
fn message_by(
    alloc: Global,
    bytes: &[u8],
    around: &[Open],
    line: &Line,
) -> Result<Option<Scope>, NoMemory>
    ensures value { IfOk result (λ scope. scope ≡ message_by (spelled bytes.now) around.now line.now) }
{
    match line {
        Line::Message(name) => Ok(Some(called(alloc, around, spelled(bytes, name))?)),
        Line::Passed
        | Line::Package(_)
        | Line::Enum(_)
        | Line::End
        | Line::Field(_)
        | Line::Unread(_) => Ok(None),
    }
}

// Takes the name of the message that begins with a line.
fn name_message(
    alloc: Global,
    bytes: &[u8],
    names: &mut Names,
    around: &[Open],
    line: &Line,
) -> Result<(), NoMemory>
    ensures ok { OnOk result (names.new ≡ with_declared names.old (message_by (spelled bytes.now) around.now line.now)) }
{
    if let Some(scope) = message_by(alloc, bytes, around, line)? {
        let Scope { full, joined: _ } = scope;
        names.add(full.into_string())?;
    }
    Ok(())
}

/// The full names of the messages, each once.
pub fn message_names(alloc: Global, bytes: &[u8], lines: &[Line]) -> Result<Names, NoMemory>
    ensures value { IfOk result (λ names. names ≡ message_names_in (spelled bytes.now) [] [] lines.now) }
{
    let mut names = Names::new(alloc);
    let mut around = Vec::new(alloc);
    for line in lines {
        name_message(alloc, bytes, &mut names, around.as_slice(), line)?;
        step(alloc, bytes, &mut around, line)?;
    }
    Ok(names)
}

// Takes the message that begins with a line.
fn take_message(
    alloc: Global,
    bytes: &[u8],
    messages: &mut Vec<Scope>,
    around: &[Open],
    line: &Line,
) -> Result<(), NoMemory>
    ensures ok { OnOk result (messages.new.items ≡ messages.old.items ++ option_to_list (message_by (spelled bytes.now) around.now line.now)) }
{
    if let Some(scope) = message_by(alloc, bytes, around, line)? {
        messages.push(scope)?;
    }
    Ok(())
}

/// The messages, in the order in which they begin.
pub fn messages_in(alloc: Global, bytes: &[u8], lines: &[Line]) -> Result<Vec<Scope>, NoMemory>
    ensures value { IfOk result (λ messages. messages.items ≡ messages_in (spelled bytes.now) [] lines.now) }
{
    let mut messages = Vec::new(alloc);
    let mut around = Vec::new(alloc);
    for line in lines {
        take_message(alloc, bytes, &mut messages, around.as_slice(), line)?;
        step(alloc, bytes, &mut around, line)?;
    }
    Ok(messages)
}
