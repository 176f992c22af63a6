//! What a file has for its words to mean.
ghost use Rattle.std.specs.Prelude.{◌≡◌, ◌<◌, ◌^◌, [], None, IfOk, OnOk, option_copied, option_map};
ghost use Rattle.std.specs.Option.{option_or};
ghost use Rattle.std.specs.String.{string_bytes};
ghost use Rattle.sz_protofile.specs.Names.{spelled, declared_by};
ghost use Rattle.sz_protofile.specs.Lookup.{known_in, names_in, package_by, package_in, is_first, again_after, with_first};

use crate::hashes::Hashes;
use crate::names::Names;
use crate::scopes::{Open, declared_by, step};
use crate::words::spelled;
use std::alloc::Global;
use std::marker::Model;
use sz_protofile::{Line, Scope};
use sz_types::NoMemory;

/// What a file has for its words to mean: its package, and the full names of its messages and enums, without what only a further message
/// of a name declares.
pub struct Known {
    pub(crate) package_name: Option<String>,
    pub(crate) names: Names,
    pub(crate) hashes: Hashes,
}

impl Drop for Known {
    fn drop(self) {
        let Known {
            package_name: _,
            names: _,
            hashes: _,
        } = self;
    }
}

impl Model for Known {
    ghost use Rattle.std.specs.Prelude.{option_map};
    ghost use Rattle.std.specs.String.{string_bytes};
    ghost use Rattle.sz_protofile.specs.Lookup.{Known as Facts, known};
    ghost use Rattle.sz_protofile_names.specs.Hashes.{AreHashed};

    ghost Value = { Facts };

    ghost view = { λ file. known (option_map string_bytes file.package_name) file.names };

    ghost invariant = { λ file. AreHashed file.names file.hashes.keys };
}

// The package that a line names, or else the one named last.
fn package_by<'t>(bytes: &'t [u8], line: &Line, last: Option<&'t str>) -> Option<&'t str>
    ensures value { option_copied result ≡ option_or (package_by (spelled bytes.now) line.now) (option_copied last.entry) }
{
    match line {
        Line::Package(name) => Some(spelled(bytes, name)),
        Line::Passed
        | Line::Enum(_)
        | Line::Message(_)
        | Line::End
        | Line::Field(_)
        | Line::Unread(_) => last,
    }
}

// The package that is named last, if one is.
fn package_in<'t>(bytes: &'t [u8], lines: &[Line]) -> Option<&'t str>
    ensures value { option_copied result ≡ package_in (spelled bytes.now) None lines.now }
{
    let mut last = None;
    for line in lines {
        last = package_by(bytes, line, last);
    }
    last
}

// A copy of the text, if there is one.
fn owned(alloc: Global, text: Option<&str>) -> Result<Option<String>, NoMemory>
    ensures value { IfOk result (λ made. option_map string_bytes made ≡ option_copied text.entry) }
{
    match text {
        Some(text) => Ok(Some(String::from_str(alloc, text)?)),
        None => Ok(None),
    }
}

// Takes the name that a line declares, unless it stands in a message that isn't the first of its name. Says whether it's the first.
fn declare(
    alloc: Global,
    bytes: &[u8],
    names: &mut Names,
    around: &[Open],
    again: usize,
    line: &Line,
) -> Result<bool, NoMemory>
    ensures ok { OnOk result (names.new ≡ with_first names.old again (declared_by (spelled bytes.now) around.now line.now)) }
    ensures first { IfOk result (λ first. first ≡ is_first names.old again (declared_by (spelled bytes.now) around.now line.now)) }
{
    if again != 0 {
        return Ok(false);
    }
    match declared_by(alloc, bytes, around, line)? {
        Some(scope) => {
            let Scope { full, joined: _ } = scope;
            Ok(names.add(full.into_string())?)
        }
        None => Ok(false),
    }
}

// How many of the open messages aren't the first of their names, or stand in one that isn't, after a line.
fn again_after(first: bool, again: usize, line: &Line) -> usize
    requires { again < 2 ^ 63 }
    ensures value { result ≡ again_after first again line.now }
{
    match line {
        Line::Message(_) => { if first { again } else { again + 1 } }
        Line::End => again.saturating_sub(1),
        Line::Passed | Line::Package(_) | Line::Enum(_) | Line::Field(_) | Line::Unread(_) => again,
    }
}

// The full names of all messages and enums, without those that stand in a message that isn't the first of its name.
fn names_in(alloc: Global, bytes: &[u8], lines: &[Line]) -> Result<Names, NoMemory>
    ensures value { IfOk result (λ names. names ≡ names_in (spelled bytes.now) [] [] 0 lines.now) }
{
    let mut names = Names::new(alloc);
    let mut around = Vec::new(alloc);
    let mut again = 0;
    for line in lines {
        let first = declare(alloc, bytes, &mut names, around.as_slice(), again, line)?;
        again = again_after(first, again, line);
        step(alloc, bytes, &mut around, line)?;
    }
    Ok(names)
}

/// What the file with these lines has for its words to mean.
pub fn known_in(alloc: Global, bytes: &[u8], lines: &[Line]) -> Result<Known, NoMemory>
    ensures value { IfOk result (λ known. known ≡ known_in (spelled bytes.now) lines.now) }
{
    let names = names_in(alloc, bytes, lines)?;
    let hashes = names.hashes(alloc)?;
    let package_name = owned(alloc, package_in(bytes, lines))?;
    Ok(Known {
        package_name,
        names,
        hashes,
    })
}
