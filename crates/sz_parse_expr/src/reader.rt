//! What a tree is read from, and what is read.
ghost use Rattle.std.specs.Prelude.{◌≡◌};

use crate::limit::Depth;
use std::alloc::Global;
use sz_lex::Token;

/// What is left to read, and how high the tree may be that is read from it.
#[derive(Clone, Copy)]
pub struct Reader<'t> {
    pub alloc: Global,
    /// The text that has the tokens.
    pub text: &'t [u8],
    /// What is left of the tokens.
    pub tokens: &'t [Token],
    pub depth: Depth,
}

impl<'t> Reader<'t> {
    /// The same from these tokens on.
    pub fn at(self, rest: &'t [Token]) -> Reader<'t>
        ensures value { result ≡ record { alloc = self.entry.alloc; text = self.entry.text; tokens = rest.entry; depth = self.entry.depth } }
    {
        Reader {
            tokens: rest,
            ..self
        }
    }
}

/// What was read, how high it is, and what follows it.
#[derive(Drop)]
pub struct Parsed<'t, T> {
    pub tree: T,
    pub height: u32,
    pub rest: &'t [Token],
}
