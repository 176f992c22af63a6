//! The text of strings and of bytes, between quotes.
ghost use Rattle.std.specs.Prelude.{◌≡◌, ◌<◌, ◌++◌, OnOk};
ghost use Rattle.sz_print.specs.Text.{hex_digit, hex_text, escaped, escaped_all, quoted};

use sz_value::NoMemory;

// Appends the bytes between quotes, with escapes for what isn't printed as it is. Of a string the bytes from 128 on are parts of
// its characters, and stand as they are.
pub(crate) fn push_quoted(bytes: &[u8], is_string: bool, out: &mut Vec<u8>) -> Result<(), NoMemory>
    ensures value { OnOk result (out.new.items ≡ out.old.items ++ quoted is_string bytes.now) }
{
    out.push(b'"')?;
    push_escaped(bytes, is_string, out)?;
    out.push(b'"')?;
    Ok(())
}

// Appends each byte, or its escape.
fn push_escaped(bytes: &[u8], is_string: bool, out: &mut Vec<u8>) -> Result<(), NoMemory>
    ensures value { OnOk result (out.new.items ≡ out.old.items ++ escaped_all is_string bytes.now) }
{
    for byte in bytes {
        push_byte(*byte, is_string, out)?;
    }
    Ok(())
}

// Appends a byte, or its escape.
fn push_byte(byte: u8, is_string: bool, out: &mut Vec<u8>) -> Result<(), NoMemory>
    ensures value { OnOk result (out.new.items ≡ out.old.items ++ escaped is_string byte) }
{
    match byte {
        b'"' | b'\\' => out.extend_from_slice(&[b'\\', byte])?,
        b'\n' => out.extend_from_slice(b"\\n")?,
        b'\t' => out.extend_from_slice(b"\\t")?,
        b'\r' => out.extend_from_slice(b"\\r")?,
        0..=31 | 127 => push_hex(byte, out)?,
        128..=255 if !is_string => push_hex(byte, out)?,
        _ => out.push(byte)?,
    }
    Ok(())
}

// Appends a byte as two hexadecimal digits after `\x`.
fn push_hex(byte: u8, out: &mut Vec<u8>) -> Result<(), NoMemory>
    ensures value { OnOk result (out.new.items ≡ out.old.items ++ hex_text byte) }
{
    out.extend_from_slice(&[b'\\', b'x', hex_digit(byte / 16), hex_digit(byte % 16)])?;
    Ok(())
}

// The hexadecimal digit of a number.
fn hex_digit(number: u8) -> u8
    requires digit { number < 16 }
    ensures value { result ≡ hex_digit number }
{
    if number < 10 {
        b'0' + number
    } else {
        b'a' + (number - 10)
    }
}
