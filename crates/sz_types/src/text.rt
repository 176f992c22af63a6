//! A text that contracts see as the list of its UTF-8 bytes.
ghost use Rattle.std.specs.Prelude.{◌≡◌, IfOk, IsUtf8};
ghost use Rattle.std.specs.String.{string_bytes};

use std::alloc::{AllocError, Global};
use std::marker::Model;

/// UTF-8 text. A `String` becomes one, and is given back, without taking memory.
#[derive(Debug)]
pub struct Text {
    string: String,
}

impl Drop for Text {
    fn drop(self) {
        let Text { string: _ } = self;
    }
}

impl Model for Text {
    ghost use Rattle.std.specs.Prelude.{ℕ, List, IsUtf8};
    ghost use Rattle.std.specs.String.{string_bytes};

    ghost Value = { List ℕ };

    ghost view = { λ text. string_bytes text.string };

    ghost invariant = { λ text. ∥ IsUtf8 (string_bytes text.string) ∥₁ };
}

impl Text {
    /// A copy of `text`.
    pub fn from_str(alloc: Global, text: &str) -> Result<Text, AllocError>
        ensures value { IfOk result (λ t. t ≡ text.now) }
    {
        Ok(Text {
            string: String::from_str(alloc, text)?,
        })
    }

    /// The text that `string` holds.
    pub fn from_string(string: String) -> Text
        ensures value { result ≡ string_bytes string }
    {
        Text { string }
    }

    /// The text of these bytes.
    pub fn from_utf8(bytes: Vec<u8>) -> Text
        requires utf8 { IsUtf8 bytes.items }
        ensures value { result ≡ bytes.items }
    {
        match String::from_utf8(bytes) {
            Ok(string) => Text { string },
            Err(_) => unreachable!(),
        }
    }

    /// Lends the text.
    pub fn as_str(&self) -> &str
        ensures value { result.now ≡ self.now }
    {
        self.string.as_str()
    }

    /// Lends the bytes of the text, which are UTF-8.
    pub fn as_bytes(&self) -> &[u8]
        ensures value { result.now ≡ self.now }
        ensures utf8 { IsUtf8 result.now }
    {
        self.string.as_str().as_bytes()
    }

    /// Gives the text as a string, and takes no memory.
    pub fn into_string(self) -> String
        ensures value { string_bytes result ≡ self }
    {
        let Self { string } = self;
        string
    }

    /// Gives the bytes of the text, which are UTF-8, and takes no memory.
    pub fn into_bytes(self) -> Vec<u8>
        ensures value { result.items ≡ self }
        ensures utf8 { IsUtf8 result.items }
    {
        let Self { string } = self;
        string.into_bytes()
    }
}
