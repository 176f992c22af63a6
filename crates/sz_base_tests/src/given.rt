//! Values as rows write them, and what they stand for.
use std::alloc::Global;
use sz_value::{List, NoMemory, Octets, Pairs, Slot, Text, Value};

// A value, or that there is none.
#[derive(Clone, Copy)]
pub(crate) enum Given {
    Nothing,
    Bool(bool),
    Int(i64),
    Time(i64),
    Str(&'static str),
    Bytes(&'static [u8]),
    // An array of whole numbers.
    Array(&'static [i64]),
    // An array of strings.
    Texts(&'static [&'static str]),
    // A tuple of whole numbers.
    Tuple(&'static [i64]),
    // The pairs from which a map is made, of whole numbers.
    Map(&'static [(i64, i64)]),
    // The pairs from which a map is made, of strings.
    Names(&'static [(&'static str, &'static str)]),
}

// What a slot has that holds such a value.
pub(crate) fn slot_of(alloc: Global, given: Given) -> Result<Slot, NoMemory> {
    let value = match given {
        Given::Nothing => return Ok(Slot::Undefined),
        Given::Bool(truth) => Value::Bool(truth),
        Given::Int(number) => Value::Int(number),
        Given::Time(number) => Value::Time(number),
        Given::Str(text) => Value::Str(Text::new(alloc, text)?),
        Given::Bytes(bytes) => Value::Bytes(Octets::from_slice(alloc, bytes)?),
        Given::Array(items) => Value::Array(numbers(alloc, items)?),
        Given::Texts(items) => Value::Array(texts(alloc, items)?),
        Given::Tuple(items) => Value::Tuple(numbers(alloc, items)?),
        Given::Map(items) => Value::Map(map(alloc, items)?),
        Given::Names(items) => Value::Map(names(alloc, items)?),
    };
    Ok(Slot::Defined(value))
}

// The values that there are, in order.
pub(crate) fn list_of(alloc: Global, given: &[Given]) -> Result<List, NoMemory> {
    let mut list = List::new(alloc);
    for it in given {
        if let Slot::Defined(value) = slot_of(alloc, *it)? {
            list.push(value)?;
        }
    }
    Ok(list)
}

fn numbers(alloc: Global, items: &[i64]) -> Result<List, NoMemory> {
    let mut list = List::with_capacity(alloc, items.len())?;
    for number in items {
        list.push(Value::Int(*number))?;
    }
    Ok(list)
}

fn texts(alloc: Global, items: &[&str]) -> Result<List, NoMemory> {
    let mut list = List::new(alloc);
    for text in items {
        list.push(Value::Str(Text::new(alloc, text)?))?;
    }
    Ok(list)
}

// The map that is made from these pairs.
pub(crate) fn map(alloc: Global, items: &[(i64, i64)]) -> Result<Pairs, NoMemory> {
    let mut pairs = Pairs::new(alloc);
    for (key, value) in items {
        pairs.insert(Value::Int(*key), Value::Int(*value))?;
    }
    Ok(pairs)
}

fn names(alloc: Global, items: &[(&str, &str)]) -> Result<Pairs, NoMemory> {
    let mut pairs = Pairs::new(alloc);
    for (key, value) in items {
        let key = Text::new(alloc, key)?;
        let value = Text::new(alloc, value)?;
        pairs.insert(Value::Str(key), Value::Str(value))?;
    }
    Ok(pairs)
}
