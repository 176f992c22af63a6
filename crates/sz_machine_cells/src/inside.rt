//! Parts of values that are read where they stand.
ghost use Rattle.std.specs.Prelude.{◌≡◌, IfOk, slice_get, option_map};
ghost use Rattle.std.specs.Option.{option_and_then};
ghost use Rattle.sz_value.specs.Seen.{seen};
ghost use Rattle.sz_builtin.specs.Views.{seen_view};
ghost use Rattle.sz_machine_cells.specs.Nested.{nth, value_nth, nested};
ghost use Rattle.sz_machine_cells.specs.Insides.{part_inside};

use std::alloc::Global;
use std::rc::Rc;
use sz_builtin::View;
use sz_value::{List, NoMemory, Pairs, Value};

/// A part of a value that is shared: the value, and the places that lead to the part, one inside the other. Places are counted from 0.
pub struct Inside {
    pub(crate) whole: Rc<Value>,
    pub(crate) places: Vec<usize>,
}

impl Drop for Inside {
    fn drop(self) {
        let Inside {
            whole: _,
            places: _,
        } = self;
    }
}

impl Inside {
    /// The part at a place of the value.
    pub(crate) fn at(alloc: Global, whole: &Rc<Value>, n: usize) -> Result<Inside, NoMemory>
        ensures value { IfOk result (λ made. part_inside made ≡ nth n (seen whole.now.value)) }
    {
        let mut places = Vec::with_capacity(alloc, 1)?;
        places.push(n)?;
        Ok(Inside {
            whole: whole.clone()?,
            places,
        })
    }

    /// The part at a place of the part.
    #[tactic(auto, using(crate::proofs::NestedLemmas::one_deeper))]
    pub(crate) fn further(&self, alloc: Global, n: usize) -> Result<Inside, NoMemory>
        ensures value { IfOk result (λ made. part_inside made ≡ option_and_then (nth n) (part_inside self.now)) }
    {
        let mut places = Vec::with_capacity(alloc, self.places.len() + 1)?;
        places.extend_from_slice(self.places.as_slice())?;
        places.push(n)?;
        Ok(Inside {
            whole: self.whole.clone()?,
            places,
        })
    }

    /// The part, if the places lead to one.
    pub(crate) fn value(&self) -> Option<&Value>
        ensures value { option_map (λ value. seen value.now) result ≡ part_inside self.now }
    {
        nested(self.whole.as_ref(), self.places.as_slice())
    }

    /// The part, to look at where it stands.
    #[inline(never)]
    pub(crate) fn view(&self) -> Option<View<'_>>
        ensures value { option_map (λ view. seen_view view) result ≡ part_inside self.now }
    {
        match self.value() {
            Some(value) => Some(View::Whole(value)),
            None => None,
        }
    }
}

/// The part of a value at a place, to look at where it stands.
#[inline(never)]
pub(crate) fn view_of_nth(value: &Value, n: usize) -> Option<View<'_>>
    ensures value { option_map (λ view. seen_view view) result ≡ nth n (seen value.now) }
{
    match nth(value, n) {
        Some(part) => Some(View::Whole(part)),
        None => None,
    }
}

// The part to which places lead, one inside the other.
fn nested<'v>(value: &'v Value, places: &[usize]) -> Option<&'v Value>
    ensures value { option_map (λ value. seen value.now) result ≡ nested places.now (seen value.now) }
{
    match places {
        [] => Some(value),
        [n, further @ ..] => match nth(value, *n) {
            Some(part) => nested(part, further),
            None => None,
        },
    }
}

/// The part of a value at a place: of an array, a tuple, or a map, whose parts are its values.
#[tactic(auto, using(sz_builtin::proofs::Parts::parts_back, sz_builtin::proofs::Parts::pairs_back))]
pub(crate) fn nth(value: &Value, n: usize) -> Option<&Value>
    ensures value { option_map (λ value. seen value.now) result ≡ nth n (seen value.now) }
{
    match value {
        Value::Array(list) | Value::Tuple(list) => item(list, n),
        Value::Map(pairs) => value_of_nth(pairs, n),
        _ => None,
    }
}

// The value at a place of a list.
fn item(list: &List, n: usize) -> Option<&Value>
    ensures value { option_map (λ value. seen value.now) result ≡ slice_get list.now n }
{
    match list.as_slice().get(n) {
        Some(value) => Some(value),
        None => None,
    }
}

// The value of the pair at a place.
fn value_of_nth(pairs: &Pairs, n: usize) -> Option<&Value>
    ensures value { option_map (λ value. seen value.now) result ≡ value_nth n pairs.now }
{
    if n < pairs.len() {
        Some(&pairs.pair(n).value)
    } else {
        None
    }
}
