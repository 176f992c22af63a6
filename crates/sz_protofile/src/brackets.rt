//! Parts that are passed over: tokens in which brackets match.
ghost use Rattle.std.specs.Prelude.{◌≡◌, [], Option};
ghost use Rattle.sz_protofile.specs.Brackets.{is_closing, opens, sign_turn, turn_of, innermost, outer, at_end, past};
ghost use Rattle.sz_protofile.specs.Outcome.{Gives};

use crate::failed::Failed;
use std::alloc::Global;
use sz_protofile_lex::{Kind, Token};

/// What a token does where parts are passed over.
#[derive(Clone, Copy, Debug, PartialEq, Eq)]
pub enum Turn {
    /// The part ends before it.
    Stop,
    Pass,
    /// This closing bracket is due from here on.
    Open(u8),
    /// It is the bracket due.
    Close,
    /// It is another closing bracket.
    Fail,
}

fn is_closing(sign: u8) -> bool
    ensures { result ≡ is_closing sign }
{
    sign == b')' || sign == b']' || sign == b'}'
}

// What a sign does that isn't the bracket due.
fn opens(sign: u8) -> Turn
    ensures { result ≡ opens sign }
{
    match sign {
        b'(' => Turn::Open(b')'),
        b'[' => Turn::Open(b']'),
        b'{' => Turn::Open(b'}'),
        _ => Turn::Pass,
    }
}

// What a sign does where this closing bracket is due, or none.
fn sign_turn(ends: bool, due: Option<u8>, sign: u8) -> Turn
    ensures { result ≡ sign_turn ends due sign }
{
    match due {
        None if is_closing(sign) || ends && sign == b';' => Turn::Stop,
        Some(bracket) if sign == bracket => Turn::Close,
        Some(_) if is_closing(sign) => Turn::Fail,
        _ => opens(sign),
    }
}

// What a token does.
fn turn_of(ends: bool, due: Option<u8>, token: &Token) -> Turn
    ensures { result ≡ turn_of ends due token.now.kind }
{
    match token.kind {
        Kind::Sign(sign) => sign_turn(ends, due, sign),
        Kind::Word | Kind::Quoted => Turn::Pass,
    }
}

// The innermost of the closing brackets that are due, which is the last.
fn innermost(due: &[u8]) -> Option<u8>
    ensures value { result ≡ innermost due.now }
{
    due.last().copied()
}

// Takes the innermost bracket away.
fn close(due: &mut Vec<u8>)
    ensures items { due.new.items ≡ outer due.old.items }
{
    due.truncate(due.len().saturating_sub(1));
}

// What is left at the end of the tokens, where no bracket is due.
fn at_end<'t>(due: &[u8]) -> Result<&'t [Token], Failed>
    ensures read { Gives (λ r. r.now) result (at_end due.now) }
{
    match due {
        [] => Ok(&[]),
        _ => Err(Failed::Unfit),
    }
}

/// What follows the longest row of tokens in which brackets match, and outside of which no semicolon stands where `ends`.
pub fn past(alloc: Global, ends: bool, tokens: &[Token]) -> Result<&[Token], Failed>
    ensures read { Gives (λ r. r.now) result (past ends [] tokens.now) }
{
    // The closing brackets that are due, the innermost last.
    let mut due = Vec::new(alloc);
    for (at, token) in tokens.iter().enumerate() {
        match turn_of(ends, innermost(due.as_slice()), token) {
            Turn::Stop => return Ok(&tokens[at..]),
            Turn::Pass => {}
            Turn::Open(bracket) => due.push(bracket)?,
            Turn::Close => close(&mut due),
            Turn::Fail => return Err(Failed::Unfit),
        }
    }
    at_end(due.as_slice())
}
