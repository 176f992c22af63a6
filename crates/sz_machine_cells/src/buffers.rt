//! Cells whose bytes lie in a buffer.
ghost use Rattle.std.specs.Prelude.{◌≡◌, ◌≤◌, IfOk, IfSome, IfNone, OnOk, Some, true, List, ℕ, take, drop};
ghost use Rattle.std.specs.Str.{is_utf8};
ghost use Rattle.sz_value.specs.Data.{bytes, int, str};
ghost use Rattle.sz_value.specs.Texts.{is_ascii};
ghost use Rattle.sz_world_rules.specs.Operations.{slice_of};
ghost use Rattle.sz_world_rules.specs.Ticks.{result_weight};
ghost use Rattle.sz_machine_cells.specs.Cells.{slot_of};

use crate::cell::{Cell, Form};
use std::alloc::Global;
use std::rc::Rc;
use sz_builtin::{Ascii, View, bytes_between, text_between};
use sz_value::{NoMemory, Value};

// How many bytes a part can have, and how many can lie before it.
const MOST_IN_PART: usize = 65_535;

const MOST_BEFORE_PART: usize = 4_294_967_295;

impl<'a> Cell<'a> {
    /// A cell of a copy of the bytes, of which parts of up to 65,535 bytes can be had without memory.
    pub fn of_bytes(alloc: Global, octets: &[u8]) -> Result<Cell<'a>, NoMemory>
        ensures value { IfOk result (λ made. made ≡ Some (bytes octets.now)) }
    {
        let buffer = Vec::from_slice(alloc, octets)?;
        Ok(Cell {
            form: Form::Buffer(Rc::new(alloc, buffer)?),
        })
    }

    /// The bytes, if they lie in a buffer or in a value that stays with its owner. Other cells may be bytes too.
    #[inline(always)]
    pub(crate) fn octets(&self) -> Option<&[u8]>
        ensures value { IfSome result (λ octets. self.now ≡ Some (bytes octets.now)) }
    {
        match &self.form {
            Form::Buffer(buffer) => Some(buffer.as_ref().as_slice()),
            Form::Part(count, before, buffer) => Some(part_bytes(*count, *before, buffer)),
            Form::Lent(value) => match value {
                Value::Bytes(octets) => Some(octets.as_slice()),
                _ => None,
            },
            _ => None,
        }
    }

    /// A cell of so many bytes of the buffer, after so many others. They lie where they are, unless they are more than a part has.
    pub(crate) fn of_part(
        alloc: Global,
        buffer: Rc<Vec<u8>>,
        before: usize,
        count: usize,
    ) -> Result<Cell<'a>, NoMemory>
        ensures value { IfOk result (λ made. made ≡ Some (bytes (take count (drop before buffer.value.items)))) }
    {
        if count > MOST_IN_PART || before > MOST_BEFORE_PART {
            return Cell::of_bytes(alloc, lying(buffer.as_ref().as_slice(), before, count));
        }
        Ok(Cell {
            form: Form::Part(count as u16, before as u32, buffer),
        })
    }

    /// The same of bytes all of which are ASCII, as a text.
    pub(crate) fn of_text(
        alloc: Global,
        buffer: Rc<Vec<u8>>,
        before: usize,
        count: usize,
    ) -> Result<Cell<'a>, NoMemory>
        requires ascii { is_ascii (take count (drop before buffer.value.items)) ≡ true }
        ensures value { IfOk result (λ made. made ≡ Some (str (take count (drop before buffer.value.items)))) }
    {
        if count > MOST_IN_PART || before > MOST_BEFORE_PART {
            return text_anew(alloc, lying(buffer.as_ref().as_slice(), before, count));
        }
        Ok(Cell {
            form: Form::Text(count as u16, before as u32, buffer),
        })
    }

    /// The text that the bytes are, if they are a part of a buffer, and all of them are ASCII: it lies where they do.
    pub(crate) fn text_in(&self) -> Option<Cell<'a>>
        ensures value { IfSome result (λ made. (octets : List ℕ) → self.now ≡ Some (bytes octets) → made ≡ Some (str octets)) }
        ensures utf8 { IfSome result (λ made. (octets : List ℕ) → self.now ≡ Some (bytes octets) → is_utf8 octets ≡ true) }
    {
        let Form::Part(count, before, buffer) = &self.form else {
            return None;
        };
        let Some(_) = Ascii::of(part_bytes(*count, *before, buffer)) else {
            return None;
        };
        let Ok(shared) = buffer.clone() else {
            return None;
        };
        Some(Cell {
            form: Form::Text(*count, *before, shared),
        })
    }

    /// Becomes the part between two places, if the cell has a part of a buffer, the slice is defined, and it weighs no more than `most`: what it
    /// weighs. Nothing is moved.
    #[inline(always)]
    #[tactic(auto, using(crate::proofs::ResultLemmas::part_in_part))]
    pub(crate) fn cut(&mut self, from: i64, to: i64, most: u64) -> Option<u64>
        ensures made { IfSome result (λ weight. self.new ≡ slice_of self.old (Some (int from)) (Some (int to))) }
        ensures weight { IfSome result (λ weight. (weight ≡ result_weight self.new) × (weight ≤ most)) }
        ensures left { IfNone result (self.new ≡ self.old) }
    {
        let Form::Part(count, before, buffer) = &mut self.form else {
            return self.cut_text(from, to, most);
        };
        let (more, few) = bytes_between(part_bytes(*count, *before, buffer), from, to)?;
        let weight = few as u64 + 1;
        let after = *before as usize + more;
        // of a part it is never more than that many bytes, and of one in a buffer below 4 GiB never after more
        if weight > most || few > MOST_IN_PART || after > MOST_BEFORE_PART {
            return None;
        }
        *count = few as u16;
        *before = after as u32;
        Some(weight)
    }

    // The same of a text.
    #[inline(never)]
    #[tactic(auto, using(crate::proofs::ResultLemmas::part_in_part, crate::proofs::ResultLemmas::ascii_in_part))]
    fn cut_text(&mut self, from: i64, to: i64, most: u64) -> Option<u64>
        ensures made { IfSome result (λ weight. self.new ≡ slice_of self.old (Some (int from)) (Some (int to))) }
        ensures weight { IfSome result (λ weight. (weight ≡ result_weight self.new) × (weight ≤ most)) }
        ensures left { IfNone result (self.new ≡ self.old) }
    {
        let Form::Text(count, before, buffer) = &mut self.form else {
            return None;
        };
        let octets = part_bytes(*count, *before, buffer);
        let (more, few) = text_between(&Ascii { octets }, from, to)?;
        let weight = few as u64 + 1;
        let after = *before as usize + more;
        if weight > most || few > MOST_IN_PART || after > MOST_BEFORE_PART {
            return None;
        }
        *count = few as u16;
        *before = after as u32;
        Some(weight)
    }

    /// Holds a copy of the bytes from now on. The buffer in which the cell had bytes serves again, unless another shares it.
    pub fn set_bytes(&mut self, alloc: Global, octets: &[u8]) -> Result<(), NoMemory>
        ensures value { OnOk result (self.new ≡ Some (bytes octets.now)) }
    {
        if let Form::Buffer(buffer) = &mut self.form
            && let Some(place) = Rc::get_mut(buffer)
        {
            return refill(place, octets);
        }
        *self = Cell::of_bytes(alloc, octets)?;
        Ok(())
    }
}

// All bytes of a buffer: as a part, which can be cut without being moved, if there aren't too many.
#[inline(always)]
#[tactic(auto, using(crate::proofs::ResultLemmas::all_are_a_part))]
pub(crate) fn all_of<'a>(buffer: Rc<Vec<u8>>) -> Form<'a>
    ensures value { slot_of result ≡ Some (bytes buffer.value.items) }
{
    let count = buffer.as_ref().len();
    if count > MOST_IN_PART {
        return Form::Buffer(buffer);
    }
    Form::Part(count as u16, 0, buffer)
}

// The cell of a text of ASCII, in memory of its own.
fn text_anew<'a>(alloc: Global, octets: &[u8]) -> Result<Cell<'a>, NoMemory>
    requires ascii { is_ascii octets.now ≡ true }
    ensures value { IfOk result (λ made. made ≡ Some (str octets.now)) }
{
    Cell::of_value(alloc, View::Ascii(Ascii { octets }).owned(alloc)?)
}

// Holds the bytes in the stead of those before, in their memory where that is enough.
fn refill(place: &mut Vec<u8>, octets: &[u8]) -> Result<(), NoMemory>
    ensures value { OnOk result (place.new.items ≡ octets.now) }
{
    place.clear();
    place.extend_from_slice(octets)?;
    Ok(())
}

// The bytes of a part of a buffer.
#[inline(always)]
pub(crate) fn part_bytes(count: u16, before: u32, buffer: &Rc<Vec<u8>>) -> &[u8]
    ensures value { result.now ≡ take count (drop before buffer.now.value.items) }
{
    lying(buffer.as_ref().as_slice(), before as usize, count as usize)
}

// So many bytes after so many others, or as many as there are.
#[inline(always)]
pub(crate) fn lying(octets: &[u8], before: usize, count: usize) -> &[u8]
    ensures value { result.now ≡ take count (drop before octets.now) }
{
    front(after(octets, before), count)
}

// The bytes after so many others.
#[inline(always)]
#[tactic(auto, using(crate::proofs::ResultLemmas::nothing_after))]
fn after(octets: &[u8], before: usize) -> &[u8]
    ensures value { result.now ≡ drop before octets.now }
{
    if before <= octets.len() {
        &octets[before..]
    } else {
        &[]
    }
}

// The first so many bytes.
#[inline(always)]
#[tactic(auto, using(crate::proofs::ResultLemmas::all_in_front))]
fn front(octets: &[u8], count: usize) -> &[u8]
    ensures value { result.now ≡ take count octets.now }
{
    if count <= octets.len() {
        &octets[..count]
    } else {
        octets
    }
}
