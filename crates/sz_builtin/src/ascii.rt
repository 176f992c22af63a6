//! Texts all of whose bytes are ASCII, where they lie.
ghost use Rattle.std.specs.Prelude.{◌≡◌, true, false, IfOk, IfSome, IfNone};
ghost use Rattle.sz_value.specs.Texts.{is_ascii};

use std::alloc::Global;
use sz_value::{NoMemory, Text};

/// A text all of whose bytes are ASCII, which lies in bytes of others.
#[derive(Clone, Copy)]
pub struct Ascii<'a> {
    pub octets: &'a [u8],
    pub ghost ascii: { is_ascii octets.now ≡ true },
}

impl<'a> Ascii<'a> {
    /// The bytes as a text, if all of them are ASCII. Nothing is copied.
    #[tactic(auto, using(sz_value::proofs::ForCallers::ascii_told))]
    pub fn of(octets: &'a [u8]) -> Option<Ascii<'a>>
        ensures some { IfSome result (λ text. text.octets.now ≡ octets.now) }
        ensures none { IfNone result (is_ascii octets.now ≡ false) }
    {
        if octets.is_ascii() {
            Some(Ascii { octets })
        } else {
            None
        }
    }
}

impl Ascii<'_> {
    /// The text.
    #[tactic(auto, using(crate::proofs::CharacterLemmas::ascii_is_text))]
    pub(crate) fn as_str(&self) -> &str
        ensures value { result.now ≡ self.now.octets.now }
    {
        match simdutf8::basic::from_utf8(self.octets) {
            Ok(text) => text,
            Err(_) => unreachable!(),
        }
    }

    /// A text of its own.
    pub(crate) fn owned(&self, alloc: Global) -> Result<Text, NoMemory>
        ensures value { IfOk result (λ made. made ≡ self.now.octets.now) }
    {
        Text::new(alloc, self.as_str())
    }
}
