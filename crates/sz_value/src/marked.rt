//! Texts that know where some of their characters stand.
ghost use Rattle.std.specs.Prelude.{◌≡◌, ◌*◌, ◌+◌, ◌-◌, ◌<◌, ◌^◌, ◌++◌, ◌∷◌, [], length, chars, string_bytes, IfOk, IfSome, IfNone};
ghost use Rattle.sz_value.specs.Characters.{IsRestAfter, IsMark, AreMarks};

use crate::NoMemory;
use crate::characters::{character_count, rest_after};
use std::alloc::Global;
use std::marker::Model;

/// How many characters stand between two places that are kept.
const STRIDE: usize = 64;

// A text with the places in its bytes of each 64th of its characters, so that no walk passes over more than 64.
//
// Contracts see the list of its bytes.
#[derive(Debug)]
pub(crate) struct MarkedText {
    string: String,
    places: Vec<usize>,
}

impl Drop for MarkedText {
    fn drop(self) {
        let MarkedText {
            string: _,
            places: _,
        } = self;
    }
}

impl Model for MarkedText {
    ghost use Rattle.std.specs.Prelude.{ℕ, List};
    ghost use Rattle.std.specs.String.{string_bytes};

    ghost Value = { List ℕ };

    ghost view = { λ text. string_bytes text.string };

    ghost use Rattle.sz_value.specs.Characters.{AreMarks};

    ghost invariant = { λ text. AreMarks (string_bytes text.string) text.places.items };
}

impl MarkedText {
    // Takes over the text, and finds its places by one walk.
    pub(crate) fn new(alloc: Global, string: String) -> Result<MarkedText, NoMemory>
        ensures value { IfOk result (λ made. made ≡ string_bytes string) }
    {
        let places = with_more(string.as_str(), front(alloc)?)?;
        Ok(MarkedText { string, places })
    }

    // A copy of the text, without a walk.
    pub(crate) fn copy(&self, alloc: Global) -> Result<MarkedText, NoMemory>
        ensures value { IfOk result (λ made. made ≡ self.now) }
    {
        let string = String::from_str(alloc, self.string.as_str())?;
        let places = copied(&self.places)?;
        Ok(MarkedText { string, places })
    }

    // Takes over a text that begins with this one and goes on with `end`. Only what follows the last place of this one is walked
    // over.
    pub(crate) fn begun(&self, string: String, end: &str) -> Result<MarkedText, NoMemory>
        requires begins { string_bytes string ≡ self.now ++ end.now }
        ensures value { IfOk result (λ made. made ≡ string_bytes string) }
    {
        let places = with_more(string.as_str(), copied(&self.places)?)?;
        Ok(MarkedText { string, places })
    }

    pub(crate) fn as_str(&self) -> &str
        ensures value { result.now ≡ self.now }
    {
        self.string.as_str()
    }

    // The text after its first `count` characters, or none where it has fewer.
    pub(crate) fn rest_after(&self, count: u64) -> Option<&str>
        ensures some { IfSome result (λ rest. IsRestAfter count self.now rest.now) }
        ensures none { IfNone result (length (chars self.now) < count) }
    {
        rest_near(self.string.as_str(), self.places.as_slice(), count)
    }

    // The number of characters.
    pub(crate) fn character_count(&self) -> usize
        ensures value { result ≡ length (chars self.now) }
        ensures small { result < 2 ^ 63 }
    {
        count_near(self.string.as_str(), self.places.as_slice())
    }
}

// The place of the front alone.
fn front(alloc: Global) -> Result<Vec<usize>, NoMemory>
    ensures value { IfOk result (λ places. places.items ≡ 0 ∷ []) }
{
    let mut places = Vec::new(alloc);
    places.push(0)?;
    Ok(places)
}

// A copy of the places.
fn copied(places: &Vec<usize>) -> Result<Vec<usize>, NoMemory>
    ensures value { IfOk result (λ made. made.items ≡ places.now.items) }
{
    places.clone()
}

// The places, and those behind them to the text's end.
fn with_more(text: &str, mut places: Vec<usize>) -> Result<Vec<usize>, NoMemory>
    requires marks { AreMarks text.now places.items }
    ensures marks { IfOk result (λ made. AreMarks text.now made.items) }
{
    for _ in 0..text.len() / STRIDE {
        match next_place(text, places.as_slice()) {
            Some(place) => places.push(place)?,
            None => return Ok(places),
        }
    }
    Ok(places)
}

// The place behind the last one, or none where the text ends before it.
#[tactic(auto, using(crate::proofs::MarkLemmas::next_marked, crate::proofs::CharacterLemmas::rest_le))]
fn next_place(text: &str, places: &[usize]) -> Option<usize>
    requires marks { AreMarks text.now places.now }
    ensures some { IfSome result (λ place. IsMark (64 * length places.now) text.now place) }
{
    let last = places.len() - 1;
    let rest = rest_after(&text[places[last]..], STRIDE as u64)?;
    Some(text.len() - rest.len())
}

// The text after its first `count` characters, by a walk from the nearest place before.
#[tactic(auto, using(crate::proofs::MarkLemmas::near_passed, crate::proofs::CharacterLemmas::fewer_after))]
fn rest_near<'a>(text: &'a str, places: &[usize], count: u64) -> Option<&'a str>
    requires marks { AreMarks text.now places.now }
    ensures some { IfSome result (λ rest. IsRestAfter count text.now rest.now) }
    ensures none { IfNone result (length (chars text.now) < count) }
{
    let stride = STRIDE as u64;
    let near = (count / stride).min(places.len() as u64 - 1);
    rest_after(&text[places[near as usize]..], count - near * stride)
}

// The number of characters, by a walk from the last place.
#[tactic(auto, using(crate::proofs::MarkLemmas::near_counted, crate::proofs::MarkLemmas::near_within))]
fn count_near(text: &str, places: &[usize]) -> usize
    requires marks { AreMarks text.now places.now }
    ensures value { result ≡ length (chars text.now) }
    ensures small { result < 2 ^ 63 }
{
    // No text has more characters than bytes, and none has 2^63 of these.
    let _most = text.as_bytes().len();
    let last = places.len() - 1;
    last * STRIDE + character_count(&text[places[last]..])
}
