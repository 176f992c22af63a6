//! The text of values.
ghost use Rattle.std.specs.Prelude.{◌≡◌, ◌++◌, OnOk};
ghost use Rattle.sz_value.specs.Data.{data_of, entries_of};
ghost use Rattle.sz_value.specs.Seen.{seen, seen_pair};
ghost use Rattle.sz_print.specs.Joined.{joined};
ghost use Rattle.sz_print.specs.Text.{value_text, parts_text, map_text, pair_text};

use crate::comma::push_comma;
use crate::number::{push_number, push_truth};
use crate::quoted::push_quoted;
use sz_value::{List, NoMemory, Pair, Pairs, Value};

/// Appends the text of the value.
#[cycle(push)]
pub fn push_value(value: &Value, out: &mut Vec<u8>) -> Result<(), NoMemory>
    ensures value { OnOk result (out.new.items ≡ out.old.items ++ value_text (seen value.now)) }
{
    match value {
        Value::Bool(truth) => push_truth(*truth, out),
        Value::Int(number) => push_number(i128::from(*number), out),
        Value::Time(number) => push_number(i128::from(*number), out),
        Value::Str(text) => push_quoted(text.as_str().as_bytes(), true, out),
        Value::Bytes(bytes) => {
            out.push(b'B')?;
            push_quoted(bytes.as_slice(), false, out)
        }
        Value::Array(list) => push_list(list, out),
        Value::Tuple(list) => push_list(list, out),
        Value::Map(pairs) => push_map(pairs, out),
    }
}

// Appends the parts in braces.
#[cycle(push)]
fn push_list(list: &List, out: &mut Vec<u8>) -> Result<(), NoMemory>
    ensures value { OnOk result (out.new.items ≡ out.old.items ++ parts_text (data_of list.now)) }
{
    out.push(b'{')?;
    push_parts(list.as_slice(), out)?;
    out.push(b'}')?;
    Ok(())
}

// Appends the parts with a comma between them.
#[cycle(push)]
fn push_parts(parts: &[Value], out: &mut Vec<u8>) -> Result<(), NoMemory>
    ensures value { OnOk result (out.new.items ≡ out.old.items ++ joined (λ v. value_text (seen v)) parts.now) }
{
    for (at, part) in parts.iter().enumerate() {
        push_comma(at, out)?;
        push_value(part, out)?;
    }
    Ok(())
}

// Appends the pairs in braces, with a colon where there is none.
#[cycle(push)]
fn push_map(pairs: &Pairs, out: &mut Vec<u8>) -> Result<(), NoMemory>
    ensures value { OnOk result (out.new.items ≡ out.old.items ++ map_text (entries_of pairs.now)) }
{
    if pairs.is_empty() {
        out.extend_from_slice(b"{:}")?;
        return Ok(());
    }
    out.push(b'{')?;
    push_pairs(pairs, out)?;
    out.push(b'}')?;
    Ok(())
}

// Appends the pairs with a comma between them.
#[cycle(push)]
fn push_pairs(pairs: &Pairs, out: &mut Vec<u8>) -> Result<(), NoMemory>
    ensures value { OnOk result (out.new.items ≡ out.old.items ++ joined pair_text pairs.now) }
{
    for place in 0..pairs.len() {
        push_comma(place, out)?;
        push_pair(pairs.pair(place), out)?;
    }
    Ok(())
}

// Appends a key and its value with a colon between them.
#[cycle(push)]
fn push_pair(pair: &Pair, out: &mut Vec<u8>) -> Result<(), NoMemory>
    ensures value { OnOk result (out.new.items ≡ out.old.items ++ pair_text (seen_pair pair.now)) }
{
    push_value(&pair.key, out)?;
    out.extend_from_slice(b": ")?;
    push_value(&pair.value, out)
}
