//! One record of a generated file.
ghost use Rattle.std.specs.Prelude.{◌≡◌, ◌++◌, ◌<◌, ◌^◌, OnOk};
ghost use Rattle.sz_feed.specs.Feed.{country, framed, record_of, varint};

use crate::NoMemory;

/// The most bytes that a record takes in the file, with its length before it.
pub const MOST_BYTES: usize = 10;

/// Appends the record of three draws, with its length before it.
pub fn push_record(file: &mut Vec<u8>, a: u32, b: u32, c: u32) -> Result<(), NoMemory>
    ensures ok { OnOk result (file.new.items ≡ file.old.items ++ framed (record_of a b c)) }
{
    if a % 7 == 0 {
        file.extend_from_slice(&[1, 8])?;
        return Ok(());
    }
    let micros = c % 1000;
    file.push(if micros < 128 { 8 } else { 9 })?;
    file.extend_from_slice(&[10, 2])?;
    file.extend_from_slice(country(a % 4))?;
    file.extend_from_slice(&[16, (b % 24) as u8, 24])?;
    push_varint(file, micros)
}

/// The country of this number, counted from 0.
fn country(number: u32) -> &'static [u8]
    ensures value { result.now ≡ country number }
{
    match number {
        0 => b"de",
        1 => b"fr",
        2 => b"jp",
        _ => b"us",
    }
}

/// Appends the number as a varint in its shortest form.
fn push_varint(file: &mut Vec<u8>, number: u32) -> Result<(), NoMemory>
    requires within { number < 2 ^ 14 }
    ensures ok { OnOk result (file.new.items ≡ file.old.items ++ varint number) }
{
    if number < 128 {
        file.push(number as u8)?;
    } else {
        file.extend_from_slice(&[(number % 128 + 128) as u8, (number / 128) as u8])?;
    }
    Ok(())
}
