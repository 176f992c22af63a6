//! What can stand after the tokens of a front.
use crate::grammar::{has_word, word_of};
use crate::walk::Walk;
use std::alloc::{AllocError, Global};
use sz_lex::Token;

/// What can stand at a place, with the tokens by which it begins: its name, which is empty where it is one word or sign.
#[derive(Clone, Copy)]
pub struct Expected {
    pub name: &'static str,
    pub tokens: &'static str,
}

/// What begins with one of several tokens. The first of them stands wherever any of them does, and begins none of the others.
const GROUPS: &[Expected] = &[
    Expected {
        name: "a statement",
        tokens: "emit static type if while do for break continue return when ; { name",
    },
    Expected {
        name: "an expression",
        tokens: "string-literal bytes-literal character number true false def int string bytes time ( { + - ! ~ name",
    },
    Expected {
        name: "a type",
        tokens: "array map proto bool int string bytes time { name",
    },
    Expected {
        name: "an operator",
        tokens: "* / % << >> & + - | ^ == != < <= > >= && ||",
    },
    Expected {
        name: "a name",
        tokens: "name",
    },
    Expected {
        name: "a number",
        tokens: "number",
    },
];

/// The other tokens that a place can ask for.
const TOKENS: &str =
    "table function of weight while else some each all = := : <- ++ -- ( ) [ ] { } . , @ ;";

fn groups() -> &'static [Expected] {
    GROUPS
}

impl Expected {
    /// Whether what can stand there begins with this token.
    pub fn begins_with(&self, token: &[u8]) -> bool {
        has_word(self.tokens, token)
    }
}

/// The tokens by which what has this name begins; for any other name the words that it is.
pub fn tokens_of(name: &str) -> &str {
    for group in groups() {
        if group.name == name {
            return group.tokens;
        }
    }
    name
}

/// Whether one of these begins with the token.
pub fn any_begins_with(found: &[Expected], token: &[u8]) -> bool {
    found.iter().any(|expected| expected.begins_with(token))
}

/// The tokens of a program up to a place, of which those from an index on, counted from 0, are the front of a statement.
#[derive(Clone, Copy)]
pub struct Front<'t> {
    pub tokens: &'t [Token],
    pub from: usize,
}

impl<'t> Front<'t> {
    /// Whether a token can stand after the front.
    pub fn takes(&self, alloc: Global, token: &[u8]) -> Result<bool, AllocError> {
        let mut walk = Walk::over(alloc, "Statement")?;
        walk.read_all(self.tokens, self.from)?;
        walk.read(token, self.tokens.len())
    }

    /// Whether the front is a whole statement.
    pub fn is_whole(&self, alloc: Global) -> Result<bool, AllocError> {
        let mut walk = Walk::over(alloc, "Statement")?;
        walk.read_all(self.tokens, self.from)?;
        Ok(walk.is_complete())
    }

    /// What can stand after the front: first what begins with one of several tokens, and then each token by which none of these begins.
    pub fn expected(&self, alloc: Global) -> Result<Vec<Expected>, AllocError> {
        let mut found = Vec::new(alloc);
        for group in groups() {
            let (first, _) = group.tokens.split_once(' ').unwrap_or((group.tokens, ""));
            let first = first.as_bytes();
            if !any_begins_with(&found, first) && self.takes(alloc, first)? {
                found.push(*group)?;
            }
        }
        for token in TOKENS.split(' ') {
            let word = token.as_bytes();
            if !any_begins_with(&found, word) && self.takes(alloc, word)? {
                found.push(Expected {
                    name: "",
                    tokens: token,
                })?;
            }
        }
        Ok(found)
    }
}

/// Whether the token of this index is one of the words.
pub fn is_at(tokens: &[Token], index: usize, words: &str) -> bool {
    match tokens.get(index) {
        Some(token) => has_word(words, word_of(token.kind)),
        None => false,
    }
}
