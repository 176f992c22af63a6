//! Texts inside values.
ghost use Rattle.std.specs.Prelude.{◌≡◌, ◌==◌, ◌≤◌, ◌<◌, ◌^◌, ◌-◌, ◌++◌, length, take, drop, chars, string_bytes, true, false, IfOk, IfSome, IfNone, OnErr, IsTrue, IsUtf8};
ghost use Rattle.sz_value.specs.Texts.{is_ascii};
ghost use Rattle.sz_value.specs.Characters.{IsRestAfter};
ghost use Rattle.sz_value.specs.Forms.{bytes_of, kept_as_ascii};
ghost use Rattle.sz_value.specs.declared.form.TheConstants.{MOST};

use crate::NoMemory;
use crate::characters::{character_count, rest_after};
use crate::form::{Form, MOST};
use crate::marked::MarkedText;
use arrayvec::ArrayString;
use std::alloc::Global;
use std::marker::Model;

/// The most bytes of a text whose characters are found by a walk from its front.
const SHORT: usize = 128;

/// A text, which doesn't change once it is made. Its bytes are UTF-8, by its type. It remembers whether all of them are
/// ASCII, and a long one of others where each 64th of its characters stands, so that places in a text are found without a walk
/// over all that is before. Few bytes, all of which are ASCII, take no memory.
///
/// Contracts see the list of its bytes.
#[derive(Debug)]
pub struct Text {
    form: Form,
}

impl Drop for Text {
    fn drop(self) {
        let Text { form: _ } = self;
    }
}

impl Model for Text {
    ghost use Rattle.std.specs.Prelude.{◌≡◌, ℕ, List};
    ghost use Rattle.sz_value.specs.Texts.{is_ascii};
    ghost use Rattle.sz_value.specs.Forms.{bytes_of, kept_as_ascii};

    ghost Value = { List ℕ };

    ghost view = { λ text. bytes_of text.form };

    ghost invariant = { λ text. kept_as_ascii text.form ≡ is_ascii (bytes_of text.form) };
}

impl Text {
    /// Takes over the text, and takes no memory: places in it are found by a walk from the front, unless it is ASCII. A copy of it is
    /// as any other.
    pub fn from_string(text: String) -> Text
        ensures value { result ≡ string_bytes text }
    {
        let form = if is_ascii(text.as_str()) {
            Form::Ascii(text)
        } else {
            Form::Unmarked(text)
        };
        Text { form }
    }

    /// A copy of the text. One of few bytes, all of which are ASCII, takes no memory.
    pub fn new(alloc: Global, text: &str) -> Result<Text, NoMemory>
        ensures value { IfOk result (λ made. made ≡ text.now) }
    {
        let form = if is_ascii(text) {
            ascii(alloc, text)?
        } else {
            other(alloc, String::from_str(alloc, text)?)?
        };
        Ok(Text { form })
    }

    /// A copy of the text, without another look at its bytes.
    pub fn copy(&self, alloc: Global) -> Result<Text, NoMemory>
        ensures value { IfOk result (λ made. made ≡ self.now) }
    {
        Ok(Text {
            form: copy_form(alloc, &self.form)?,
        })
    }

    /// The first text and then the second, with another look at the second alone.
    #[tactic(auto, using(crate::proofs::TextLemmas::ascii_joined))]
    pub fn joined(alloc: Global, first: &Text, second: &Text) -> Result<Text, NoMemory>
        ensures value { IfOk result (λ made. made ≡ first.now ++ second.now) }
    {
        let form = if first.is_ascii() && second.is_ascii() {
            ascii_joined(alloc, first.as_str(), second.as_str())?
        } else {
            let string = joined(alloc, first.as_str(), second.as_str())?;
            begun(alloc, &first.form, string, second.as_str())?
        };
        Ok(Text { form })
    }

    /// The bytes of an ASCII text from the place `from` up to the place `to`, as a text. Places are counted from 0.
    #[tactic(auto, using(crate::proofs::TextLemmas::ascii_part, crate::proofs::TextLemmas::ascii_cut))]
    pub fn ascii_part(&self, alloc: Global, from: usize, to: usize) -> Result<Text, NoMemory>
        requires ascii { IsTrue (is_ascii self.now) }
        requires order { from ≤ to }
        requires within { to ≤ length self.now }
        ensures value { IfOk result (λ made. made ≡ take (to - from) (drop from self.now)) }
    {
        Ok(Text {
            form: ascii(alloc, &self.as_str()[from..to])?,
        })
    }

    /// The text.
    pub fn as_str(&self) -> &str
        ensures value { result.now ≡ self.now }
        ensures utf8 { IsUtf8 self.now }
    {
        text_of(&self.form)
    }

    /// Whether all bytes are ASCII, which the text remembers.
    pub fn is_ascii(&self) -> bool
        ensures value { result ≡ is_ascii self.now }
    {
        matches!(self.form, Form::Ascii(_) | Form::Brief(_))
    }

    /// The number of bytes.
    pub fn len(&self) -> usize
        ensures value { result ≡ length self.now }
    {
        self.as_str().len()
    }

    /// Whether there are no bytes.
    pub fn is_empty(&self) -> bool
        ensures value { result ≡ (length self.now == 0) }
    {
        self.as_str().is_empty()
    }

    /// The text after its first `count` characters, or none where it has fewer. In a long text at most 64 characters are walked
    /// over.
    pub fn rest_after(&self, count: u64) -> Option<&str>
        ensures some { IfSome result (λ rest. IsRestAfter count self.now rest.now) }
        ensures none { IfNone result (length (chars self.now) < count) }
    {
        match &self.form {
            Form::Ascii(string) | Form::Unmarked(string) => rest_after(string.as_str(), count),
            Form::Brief(text) => rest_after(text.as_str(), count),
            Form::Marked(marked) => marked.rest_after(count),
        }
    }

    /// The number of characters. In a long text at most 64 are walked over.
    pub fn character_count(&self) -> usize
        ensures value { result ≡ length (chars self.now) }
        ensures small { result < 2 ^ 63 }
    {
        match &self.form {
            Form::Ascii(string) | Form::Unmarked(string) => character_count(string.as_str()),
            Form::Brief(text) => character_count(text.as_str()),
            Form::Marked(marked) => marked.character_count(),
        }
    }
}

// The text that is kept.
fn text_of(form: &Form) -> &str
    ensures value { result.now ≡ bytes_of form.now }
    ensures utf8 { IsUtf8 (bytes_of form.now) }
{
    match form {
        Form::Ascii(string) | Form::Unmarked(string) => string.as_str(),
        Form::Brief(text) => text.as_str(),
        Form::Marked(marked) => marked.as_str(),
    }
}

// How an ASCII text is kept: in place where it has few bytes, without memory.
fn ascii(alloc: Global, text: &str) -> Result<Form, NoMemory>
    ensures value { IfOk result (λ made. bytes_of made ≡ text.now) }
    ensures ascii { IfOk result (λ made. kept_as_ascii made ≡ true) }
    ensures many { OnErr result (MOST < length text.now) }
{
    match ArrayString::from(text) {
        Ok(brief) => Ok(Form::Brief(brief)),
        Err(_) => Ok(Form::Ascii(String::from_str(alloc, text)?)),
    }
}

// How two ASCII texts are kept as one.
fn ascii_joined(alloc: Global, first: &str, second: &str) -> Result<Form, NoMemory>
    ensures value { IfOk result (λ made. bytes_of made ≡ first.now ++ second.now) }
    ensures ascii { IfOk result (λ made. kept_as_ascii made ≡ true) }
    ensures many { OnErr result (MOST < length (first.now ++ second.now)) }
{
    match brief_joined(first, second) {
        Some(brief) => Ok(Form::Brief(brief)),
        None => Ok(Form::Ascii(joined(alloc, first, second)?)),
    }
}

// Two texts as one in place, or none where there are too many bytes.
fn brief_joined(first: &str, second: &str) -> Option<ArrayString<MOST>>
    ensures value { IfSome result (λ made. made.bytes ≡ first.now ++ second.now) }
    ensures many { IfNone result (MOST < length (first.now ++ second.now)) }
{
    let mut made = ArrayString::from(first).ok()?;
    made.try_push_str(second).ok()?;
    Some(made)
}

// How a text is kept that isn't ASCII.
fn other(alloc: Global, string: String) -> Result<Form, NoMemory>
    ensures value { IfOk result (λ made. bytes_of made ≡ string_bytes string) }
    ensures other { IfOk result (λ made. kept_as_ascii made ≡ false) }
{
    if string.len() <= SHORT {
        return Ok(Form::Unmarked(string));
    }
    let marked = MarkedText::new(alloc, string)?;
    Ok(Form::Marked(Box::new(alloc, marked)?))
}

// How a text is kept that isn't ASCII, and begins with one that is kept.
fn begun(alloc: Global, first: &Form, string: String, second: &str) -> Result<Form, NoMemory>
    requires begins { string_bytes string ≡ bytes_of first.now ++ second.now }
    ensures value { IfOk result (λ made. bytes_of made ≡ string_bytes string) }
    ensures other { IfOk result (λ made. kept_as_ascii made ≡ false) }
{
    match first {
        Form::Marked(first) => {
            let marked = first.begun(string, second)?;
            Ok(Form::Marked(Box::new(alloc, marked)?))
        }
        Form::Ascii(_) | Form::Brief(_) | Form::Unmarked(_) => other(alloc, string),
    }
}

// A copy of what is kept.
fn copy_form(alloc: Global, form: &Form) -> Result<Form, NoMemory>
    ensures value { IfOk result (λ made. bytes_of made ≡ bytes_of form.now) }
    ensures ascii { IfOk result (λ made. kept_as_ascii made ≡ kept_as_ascii form.now) }
{
    match form {
        Form::Ascii(string) => ascii(alloc, string.as_str()),
        Form::Brief(text) => Ok(Form::Brief(*text)),
        Form::Unmarked(string) => other(alloc, String::from_str(alloc, string.as_str())?),
        Form::Marked(marked) => Ok(Form::Marked(Box::new(alloc, marked.copy(alloc)?)?)),
    }
}

// Whether all bytes are ASCII, by a walk over them.
#[tactic(auto, using(crate::proofs::TextLemmas::ascii_told))]
fn is_ascii(text: &str) -> bool
    ensures value { result ≡ is_ascii text.now }
{
    text.is_ascii()
}

// The first text and then the second, each copied once.
fn joined(alloc: Global, first: &str, second: &str) -> Result<String, NoMemory>
    ensures value { IfOk result (λ made. string_bytes made ≡ first.now ++ second.now) }
{
    let mut made = String::with_capacity(alloc, first.len() + second.len())?;
    made.push_str(first)?;
    made.push_str(second)?;
    Ok(made)
}
