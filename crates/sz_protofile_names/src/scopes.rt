//! The messages that are open at a line.
ghost use Rattle.std.specs.Prelude.{◌≡◌, ◌-◌, IfOk, OnOk, length, take, codes};
ghost use Rattle.sz_protofile.specs.Names.{spelled, innermost, put_after, called, around_after, declared_by};
ghost use Rattle.sz_protofile_names.specs.Hashes.{hash_of};

use crate::hashes::{hash_of, hash_put_after};
use crate::words::{put_after, spelled};
use std::alloc::Global;
use std::marker::Model;
use sz_protofile::{Line, Scope};
use sz_types::{NoMemory, Text};

/// A message that is open. Contracts see what it is called.
pub struct Open {
    scope: Scope,
    // The hash of its full name.
    hash: u64,
}

impl Drop for Open {
    fn drop(self) {
        let Open { scope: _, hash: _ } = self;
    }
}

impl Model for Open {
    ghost use Rattle.std.specs.Prelude.{◌≡◌};
    ghost use Rattle.sz_protofile.specs.declared.scope.Scope.{Scope as Called};
    ghost use Rattle.sz_protofile_names.specs.Hashes.{hash_of};

    ghost Value = { Called };

    ghost view = { λ message. message.scope };

    ghost invariant = { λ message. message.hash ≡ hash_of message.scope.full };
}

impl Open {
    // The full name.
    pub(crate) fn full(&self) -> &str
        ensures value { result.now ≡ self.now.full }
    {
        self.scope.full.as_str()
    }

    // The names of the message and those around it, with underscores between.
    fn joined(&self) -> &str
        ensures value { result.now ≡ self.now.joined }
    {
        self.scope.joined.as_str()
    }

    // The hash of the full name of what is called so inside the message.
    pub(crate) fn hash_inside(&self, name: &str) -> u64
        ensures value { result ≡ hash_of (put_after (codes ".") self.now.full name.now) }
    {
        hash_put_after(self.scope.full.as_str(), self.hash, name)
    }
}

/// The full name of the innermost message, and no text where there is none.
pub fn full_of(around: &[Open]) -> &str
    ensures value { result.now ≡ (innermost around.now).full }
{
    match around.last() {
        Some(message) => message.full(),
        None => "",
    }
}

// The names of the innermost message and those around it, with underscores between.
fn joined_of(around: &[Open]) -> &str
    ensures value { result.now ≡ (innermost around.now).joined }
{
    match around.last() {
        Some(message) => message.joined(),
        None => "",
    }
}

/// What is called so inside the messages that are open.
pub fn called(alloc: Global, around: &[Open], name: &str) -> Result<Scope, NoMemory>
    ensures value { IfOk result (λ scope. scope ≡ called around.now name.now) }
{
    let full = put_after(alloc, ".", full_of(around), name)?;
    let joined = put_after(alloc, "_", joined_of(around), name)?;
    Ok(Scope {
        full: Text::from_string(full),
        joined: Text::from_string(joined),
    })
}

// The hash of the full name of what is called so inside the messages that are open.
fn hash_called(around: &[Open], name: &str) -> u64
    ensures value { result ≡ hash_of (called around.now name.now).full }
{
    match around.last() {
        Some(message) => message.hash_inside(name),
        None => hash_of(name),
    }
}

// The message that is called so inside those that are open.
fn opened(alloc: Global, around: &[Open], name: &str) -> Result<Open, NoMemory>
    ensures value { IfOk result (λ message. message ≡ called around.now name.now) }
{
    let scope = called(alloc, around, name)?;
    let hash = hash_called(around, name);
    Ok(Open { scope, hash })
}

// Closes the innermost message.
fn close(around: &mut Vec<Open>)
    ensures value { around.new.items ≡ take (length around.old.items - 1) around.old.items }
{
    around.truncate(around.len().saturating_sub(1));
}

/// Goes over a line: opens or closes the message that it opens or closes.
pub fn step(
    alloc: Global,
    bytes: &[u8],
    around: &mut Vec<Open>,
    line: &Line,
) -> Result<(), NoMemory>
    ensures ok { OnOk result (around.new.items ≡ around_after (spelled bytes.now) around.old.items line.now) }
{
    match line {
        Line::Message(name) => {
            let message = opened(alloc, around.as_slice(), spelled(bytes, name))?;
            around.push(message)?;
        }
        Line::End => close(around),
        Line::Passed | Line::Package(_) | Line::Enum(_) | Line::Field(_) | Line::Unread(_) => {}
    }
    Ok(())
}

// What a line declares.
pub fn declared_by(
    alloc: Global,
    bytes: &[u8],
    around: &[Open],
    line: &Line,
) -> Result<Option<Scope>, NoMemory>
    ensures value { IfOk result (λ scope. scope ≡ declared_by (spelled bytes.now) around.now line.now) }
{
    match line {
        Line::Message(name) | Line::Enum(name) => {
            Ok(Some(called(alloc, around, spelled(bytes, name))?))
        }
        Line::Passed | Line::Package(_) | Line::End | Line::Field(_) | Line::Unread(_) => Ok(None),
    }
}
