//! Sums, and the joins of strings, bytes and arrays.
ghost use Rattle.std.specs.Prelude.{◌≡◌, ◌++◌, IfOk};
ghost use Rattle.sz_value.specs.Seen.{seen_slot};
ghost use Rattle.sz_builtin.specs.Operators.{sum};
ghost use Rattle.sz_builtin.specs.Letters.{letters_of};
ghost use Rattle.sz_builtin.specs.Views.{seen_view};

use crate::letters::Letters;
use crate::numbers::plus;
use crate::slicing::copies;
use crate::view::{Kind, View};
use std::alloc::Global;
use sz_value::{List, NoMemory, Octets, Slot, Text, Value, copy};

// So many bytes of ASCII, and fewer, take no memory as a text.
const FEW: usize = 16;

/// The sum of two numbers or of a time and a number, or two strings, two byte strings or two arrays as one.
#[tactic(auto, using(crate::proofs::Parts::parts_back))]
pub fn sum(alloc: Global, a: &View<'_>, b: &View<'_>) -> Result<Slot, NoMemory>
    ensures value { IfOk result (λ slot. seen_slot slot ≡ sum (seen_view a.now) (seen_view b.now)) }
{
    match (a.kind(), b.kind()) {
        (Kind::Int(a), Kind::Int(b)) => Ok(Slot::Defined(Value::Int(plus(a, b)))),
        (Kind::Time(a), Kind::Int(b)) => Ok(Slot::Defined(Value::Time(plus(a, b)))),
        (Kind::Str(a), Kind::Str(b)) => Ok(Slot::Defined(Value::Str(joined_texts(alloc, a, b)?))),
        (Kind::Bytes(a), Kind::Bytes(b)) => {
            Ok(Slot::Defined(Value::Bytes(joined_bytes(alloc, a, b)?)))
        }
        (Kind::Array(a), Kind::Array(b)) => {
            Ok(Slot::Defined(Value::Array(joined_lists(alloc, a, b)?)))
        }
        _ => Ok(Slot::Undefined),
    }
}

// The first text and then the second. Long ones of ASCII are copied once.
fn joined_texts(alloc: Global, a: Letters<'_>, b: Letters<'_>) -> Result<Text, NoMemory>
    ensures value { IfOk result (λ made. made ≡ letters_of a.entry ++ letters_of b.entry) }
{
    match (a, b) {
        (Letters::Kept(a), Letters::Kept(b)) => Text::joined(alloc, a, b),
        _ => joined_apart(alloc, &a, &b),
    }
}

// The same where one of them lies elsewhere.
fn joined_apart(alloc: Global, a: &Letters<'_>, b: &Letters<'_>) -> Result<Text, NoMemory>
    ensures value { IfOk result (λ made. made ≡ letters_of a.now ++ letters_of b.now) }
{
    if a.is_ascii() && b.is_ascii() && a.octets().len() + b.octets().len() > FEW {
        return joined_anew(alloc, a.as_str(), b.as_str());
    }
    let a = a.lent(alloc)?;
    let b = b.lent(alloc)?;
    Text::joined(alloc, a.text(), b.text())
}

// The same of ASCII texts, in memory of its own.
fn joined_anew(alloc: Global, a: &str, b: &str) -> Result<Text, NoMemory>
    ensures value { IfOk result (λ made. made ≡ a.now ++ b.now) }
{
    let mut made = String::with_capacity(alloc, a.len() + b.len())?;
    made.push_str(a)?;
    made.push_str(b)?;
    Ok(Text::from_string(made))
}

// The first bytes and then the second, each copied once.
fn joined_bytes(alloc: Global, a: &[u8], b: &[u8]) -> Result<Octets, NoMemory>
    ensures value { IfOk result (λ octets. octets ≡ a.now ++ b.now) }
{
    let mut bytes = Vec::with_capacity(alloc, a.len() + b.len())?;
    bytes.extend_from_slice(a)?;
    bytes.extend_from_slice(b)?;
    Ok(Octets::from_vec(bytes))
}

// The values of the first list and then those of the second, each copied once.
fn joined_lists(alloc: Global, a: &List, b: &List) -> Result<List, NoMemory>
    ensures value { IfOk result (λ list. list ≡ a.now ++ b.now) }
{
    let room = a.as_slice().len() + b.as_slice().len();
    let mut list = copies(alloc, a.as_slice(), room)?;
    for value in b.as_slice() {
        list.push(copy(alloc, value)?)?;
    }
    Ok(list)
}
