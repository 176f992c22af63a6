//! The walk over a program's tokens by the rows of the grammar: from left to right, and never back.
use crate::grammar::{NameChange, change_of, chosen, may_be_missing, word_of};
use std::alloc::{AllocError, Global};
use sz_lex::Token;

/// A change of names, and the index of its token from 0.
#[derive(Clone, Copy)]
pub struct Event {
    pub change: NameChange,
    pub token: usize,
}

/// A walk over tokens: what is still to come, the next at the end; and what happened to names before.
#[derive(Drop)]
pub struct Walk {
    stack: Vec<&'static str>,
    events: Vec<Event>,
}

/// The most rows that one token takes: each token that was read before left a few symbols at most.
const MOST_ROWS: u32 = 20_000_000;

impl Walk {
    /// The walk over what a symbol stands for, before its first token.
    pub fn over(alloc: Global, symbol: &'static str) -> Result<Walk, AllocError> {
        let mut stack = Vec::new(alloc);
        stack.push(symbol)?;
        Ok(Walk {
            stack,
            events: Vec::new(alloc),
        })
    }

    /// What happened to names, in the order of the tokens.
    pub fn into_events(self) -> Vec<Event> {
        let Walk { stack: _, events } = self;
        events
    }

    /// Takes the next word of the grammar off what is to come.
    fn next_word(&mut self) -> Result<Option<&'static str>, AllocError> {
        let Some(words) = self.stack.pop() else {
            return Ok(None);
        };
        match words.split_once(' ') {
            Some((first, rest)) => {
                self.stack.push(rest)?;
                Ok(Some(first))
            }
            None => Ok(Some(words)),
        }
    }

    /// Goes over a token with this index, if it can stand here: so it says. After one that can't, the walk has no further use.
    pub fn read(&mut self, token: &[u8], index: usize) -> Result<bool, AllocError> {
        for _ in 0..MOST_ROWS {
            let Some(word) = self.next_word()? else {
                return Ok(false);
            };
            if let Some((change, before)) = change_of(word) {
                let token = index.saturating_sub(before);
                self.events.push(Event { change, token })?;
            } else if !is_symbol(word) {
                return Ok(word.as_bytes() == token);
            } else {
                let Some((is_read, rest)) = chosen(word, token) else {
                    return Ok(false);
                };
                if !rest.is_empty() {
                    self.stack.push(rest)?;
                }
                if is_read {
                    return Ok(true);
                }
            }
        }
        Ok(false)
    }

    /// Whether nothing more has to come.
    pub fn is_complete(&self) -> bool {
        for words in self.stack.as_slice() {
            for word in words.split(' ') {
                if !may_be_missing(word) {
                    return false;
                }
            }
        }
        true
    }

    /// Goes over tokens from an index on, as far as they can stand here, and gives the index of the first that can't.
    pub fn read_all(&mut self, tokens: &[Token], from: usize) -> Result<usize, AllocError> {
        for (index, token) in tokens.iter().enumerate().skip(from) {
            if !self.read(word_of(token.kind), index)? {
                return Ok(index);
            }
        }
        Ok(tokens.len())
    }
}

/// Whether a word of the grammar stands for a symbol, and not for a token.
fn is_symbol(word: &str) -> bool {
    match word.as_bytes() {
        [first, ..] => first.is_ascii_uppercase(),
        [] => false,
    }
}
