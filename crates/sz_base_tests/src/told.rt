//! Values as rows write them: numbers in decimal, a time after `@`, a text in quotes, bytes as hexadecimal digits after `x`, an
//! array in brackets, and a message in braces.
use std::alloc::{AllocError, Global};
use std::fmt::Write;
use sz_value::{Slot, Value};

/// The value, or that it is undefined.
pub(crate) fn told(alloc: Global, slot: &Slot) -> Result<String, AllocError> {
    let mut out = String::new(alloc);
    match slot {
        Slot::Defined(value) => tell(&mut out, 16, value)?,
        Slot::Undefined => out.push_str("undefined")?,
    }
    Ok(out)
}

// Appends the value, down to so many levels.
#[cycle(tell)]
fn tell(out: &mut String, levels: u32, value: &Value) -> Result<(), AllocError> {
    if levels == 0 {
        return out.push_str("..");
    }
    match value {
        Value::Bool(truth) => write!(out, "{truth}")?,
        Value::Int(number) => write!(out, "{number}")?,
        Value::Time(number) => write!(out, "@{number}")?,
        Value::Str(text) => write!(out, "'{}'", text.as_str())?,
        Value::Bytes(octets) => tell_octets(out, octets.as_slice())?,
        Value::Array(elements) => {
            out.push_str("[")?;
            tell_all(out, levels - 1, elements.as_slice())?;
            out.push_str("]")?;
        }
        Value::Tuple(parts) => {
            out.push_str("{")?;
            tell_all(out, levels - 1, parts.as_slice())?;
            out.push_str("}")?;
        }
        Value::Map(_) => out.push_str("a map")?,
    }
    Ok(())
}

// Appends the values, with commas between.
#[cycle(tell)]
fn tell_all(out: &mut String, levels: u32, values: &[Value]) -> Result<(), AllocError> {
    let mut is_first = true;
    for value in values {
        if !is_first {
            out.push_str(", ")?;
        }
        is_first = false;
        tell(out, levels, value)?;
    }
    Ok(())
}

// Appends the digits of the bytes.
fn tell_octets(out: &mut String, octets: &[u8]) -> Result<(), AllocError> {
    out.push_str("x")?;
    for octet in octets {
        write!(out, "{octet:02x}")?;
    }
    Ok(())
}
