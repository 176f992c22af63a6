//! Texts that are looked at where they stand.
ghost use Rattle.std.specs.Prelude.{◌≡◌, ◌++◌, IfOk, IsUtf8};
ghost use Rattle.sz_value.specs.Texts.{is_ascii};
ghost use Rattle.sz_builtin.specs.Letters.{letters_of, lent_letters};

use crate::ascii::Ascii;
use std::alloc::Global;
use sz_value::{NoMemory, Text};

/// A text that is looked at where it stands: one that a value has, or one of ASCII that lies elsewhere.
#[derive(Clone, Copy)]
pub enum Letters<'a> {
    Kept(&'a Text),
    Ascii(Ascii<'a>),
}

/// A text that such a look is of: one made for it, or the one that a value has.
pub(crate) enum LentText<'a> {
    Made(Text),
    Shared(&'a Text),
}

impl<'a> Drop for LentText<'a> {
    fn drop(self) {
        match self {
            LentText::Made(_) | LentText::Shared(_) => {}
        }
    }
}

impl Letters<'_> {
    /// The bytes.
    #[inline(always)]
    #[tactic(auto, using(crate::proofs::CharacterLemmas::ascii_is_text))]
    pub(crate) fn octets(&self) -> &[u8]
        ensures value { result.now ≡ letters_of self.now }
        ensures utf8 { IsUtf8 (letters_of self.now) }
    {
        match self {
            Letters::Kept(text) => text.as_str().as_bytes(),
            Letters::Ascii(text) => text.octets,
        }
    }

    /// The text.
    pub(crate) fn as_str(&self) -> &str
        ensures value { result.now ≡ letters_of self.now }
    {
        match self {
            Letters::Kept(text) => text.as_str(),
            Letters::Ascii(text) => text.as_str(),
        }
    }

    /// Whether all bytes are ASCII, without a look at them.
    pub(crate) fn is_ascii(&self) -> bool
        ensures value { result ≡ is_ascii (letters_of self.now) }
    {
        match self {
            Letters::Kept(text) => text.is_ascii(),
            Letters::Ascii(_) => true,
        }
    }

    /// A text of its own.
    pub(crate) fn owned(&self, alloc: Global) -> Result<Text, NoMemory>
        ensures value { IfOk result (λ made. made ≡ letters_of self.now) }
    {
        match self {
            Letters::Kept(text) => text.copy(alloc),
            Letters::Ascii(text) => text.owned(alloc),
        }
    }

    /// The text to look at as such.
    pub(crate) fn lent(&self, alloc: Global) -> Result<LentText<'_>, NoMemory>
        ensures value { IfOk result (λ lent. lent_letters lent ≡ letters_of self.now) }
    {
        match self {
            Letters::Kept(text) => Ok(LentText::Shared(text)),
            Letters::Ascii(text) => Ok(LentText::Made(text.owned(alloc)?)),
        }
    }
}

impl LentText<'_> {
    /// The text.
    pub(crate) fn text(&self) -> &Text
        ensures value { result.now ≡ lent_letters self.now }
    {
        match self {
            LentText::Made(text) => text,
            LentText::Shared(text) => text,
        }
    }
}
