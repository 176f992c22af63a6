//! A text and its tokens.
ghost use Rattle.std.specs.Prelude.{◌≡◌, IfOk, IfErr};
ghost use Rattle.sz_lex.specs.Tokens.{HasTokens};
ghost use Rattle.sz_lex.specs.Lexed.{lexeme_of};

use crate::error::LexError;
use crate::token::Token;
use std::alloc::Global;
use std::marker::Model;

/// A text that has tokens, and its tokens in order.
#[derive(Debug)]
pub struct Tokens {
    text: Vec<u8>,
    tokens: Vec<Token>,
}

impl Drop for Tokens {
    fn drop(self) {
        let Tokens { text: _, tokens: _ } = self;
    }
}

impl Model for Tokens {
    ghost use Rattle.sz_lex.specs.Tokens.{HasTokens};
    ghost use Rattle.sz_lex.specs.Lexed.{Lexed};

    ghost Value = { Lexed };

    ghost view = { λ t. record { text = t.text.items; tokens = t.tokens.items } };

    ghost invariant = { λ t. ∥ HasTokens t.text.items t.tokens.items ∥₁ };
}

impl Tokens {
    // A copy of the text, and its tokens.
    pub(crate) fn new(alloc: Global, text: &[u8], tokens: Vec<Token>) -> Result<Tokens, LexError>
        requires { HasTokens text.now tokens.items }
        ensures ok { IfOk result (λ t. t ≡ record { text = text.now; tokens = tokens.items }) }
        ensures err { IfErr result (λ e. e ≡ LexError.NoMemory) }
    {
        match Vec::from_slice(alloc, text) {
            Ok(text) => Ok(Tokens { text, tokens }),
            Err(_) => Err(LexError::NoMemory),
        }
    }

    /// The text.
    pub fn text(&self) -> &[u8]
        ensures value { result.now ≡ self.now.text }
    {
        self.text.as_slice()
    }

    /// The tokens that the text has, in its order.
    pub fn as_slice(&self) -> &[Token]
        ensures value { result.now ≡ self.now.tokens }
        ensures read { HasTokens self.now.text self.now.tokens }
    {
        self.tokens.as_slice()
    }

    /// The bytes of the text in a token's span, as far as the text reaches.
    pub fn lexeme(&self, token: &Token) -> &[u8]
        ensures value { result.now ≡ lexeme_of self.now.text token.now }
    {
        let text = self.text.as_slice();
        let start = token.start.min(text.len());
        let rest = &text[start..];
        &rest[..token.len.min(rest.len())]
    }
}
