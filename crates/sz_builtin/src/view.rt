//! Values that are looked at where they stand.
ghost use Rattle.std.specs.Prelude.{◌≡◌, IfOk};
ghost use Rattle.sz_value.specs.Seen.{seen};
ghost use Rattle.sz_builtin.specs.Views.{seen_view, seen_kind, seen_lent};

use crate::ascii::Ascii;
use crate::letters::Letters;
use std::alloc::Global;
use sz_value::{List, NoMemory, Octets, Pairs, Value, copy};

/// A value that is looked at where it stands: one that takes no memory, a text of ASCII or the bytes of a byte string, wherever they
/// lie, or any value.
#[derive(Clone, Copy)]
pub enum View<'a> {
    Bool(bool),
    Int(i64),
    Time(i64),
    Ascii(Ascii<'a>),
    Bytes(&'a [u8]),
    Whole(&'a Value),
}

/// What a value is by its kind, of which there is one for each variant of `Value`.
#[derive(Clone, Copy)]
pub enum Kind<'a> {
    Bool(bool),
    Int(i64),
    Time(i64),
    Str(Letters<'a>),
    Bytes(&'a [u8]),
    Array(&'a List),
    Tuple(&'a List),
    Map(&'a Pairs),
}

/// A value that a view is of: one made for the look, or the one that it is lent.
pub enum Lent<'a> {
    Made(Value),
    Shared(&'a Value),
}

impl<'a> Drop for Lent<'a> {
    fn drop(self) {
        match self {
            Lent::Made(_) | Lent::Shared(_) => {}
        }
    }
}

impl View<'_> {
    /// What the value is.
    #[inline(always)]
    pub fn kind(&self) -> Kind<'_>
        ensures value { seen_kind result ≡ seen_view self.now }
    {
        match self {
            View::Bool(truth) => Kind::Bool(*truth),
            View::Int(number) => Kind::Int(*number),
            View::Time(number) => Kind::Time(*number),
            View::Ascii(text) => Kind::Str(Letters::Ascii(*text)),
            View::Bytes(octets) => Kind::Bytes(octets),
            View::Whole(value) => kind_of(value),
        }
    }

    /// A value of its own.
    pub fn owned(&self, alloc: Global) -> Result<Value, NoMemory>
        ensures value { IfOk result (λ made. seen made ≡ seen_view self.now) }
    {
        match self {
            View::Bool(truth) => Ok(Value::Bool(*truth)),
            View::Int(number) => Ok(Value::Int(*number)),
            View::Time(number) => Ok(Value::Time(*number)),
            View::Ascii(text) => Ok(Value::Str(text.owned(alloc)?)),
            View::Bytes(octets) => Ok(Value::Bytes(Octets::from_slice(alloc, octets)?)),
            View::Whole(value) => copy(alloc, value),
        }
    }

    /// The value to look at as such.
    pub fn lent(&self, alloc: Global) -> Result<Lent<'_>, NoMemory>
        ensures value { IfOk result (λ lent. seen_lent lent ≡ seen_view self.now) }
    {
        match self {
            View::Whole(value) => Ok(Lent::Shared(value)),
            other => Ok(Lent::Made(other.owned(alloc)?)),
        }
    }
}

// What a value is.
fn kind_of(value: &Value) -> Kind<'_>
    ensures value { seen_kind result ≡ seen value.now }
{
    match value {
        Value::Bool(truth) => Kind::Bool(*truth),
        Value::Int(number) => Kind::Int(*number),
        Value::Time(number) => Kind::Time(*number),
        Value::Str(text) => Kind::Str(Letters::Kept(text)),
        Value::Bytes(octets) => Kind::Bytes(octets.as_slice()),
        Value::Array(list) => Kind::Array(list),
        Value::Tuple(list) => Kind::Tuple(list),
        Value::Map(pairs) => Kind::Map(pairs),
    }
}

impl Lent<'_> {
    /// The value.
    pub fn value(&self) -> &Value
        ensures value { seen result.now ≡ seen_lent self.now }
    {
        match self {
            Lent::Made(value) => value,
            Lent::Shared(value) => value,
        }
    }
}
