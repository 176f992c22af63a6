//! What is written: places, and the line of a failure.
ghost use Rattle.std.specs.Prelude.{◌≡◌, ◌++◌, IfOk, OnOk};
ghost use Rattle.szl_cut.specs.Answers.{number_line, places_text, line_of};

use crate::failure::Failure;
use itoa::Buffer;
use std::alloc::{AllocError, Global};

/// The places, each as a line.
pub(crate) fn places_text(alloc: Global, places: &[u64]) -> Result<Vec<u8>, AllocError>
    ensures value { IfOk result (λ text. text.items ≡ places_text places.now) }
{
    let mut text = Vec::new(alloc);
    for place in places {
        push_number(&mut text, *place)?;
    }
    Ok(text)
}

/// The line of a failure, with its newline.
pub(crate) fn line_of(alloc: Global, failure: Failure) -> Result<Vec<u8>, AllocError>
    ensures value { IfOk result (λ line. line.items ≡ line_of failure) }
{
    match failure {
        Failure::Usage => Vec::from_slice(alloc, b"bad command line\n"),
        Failure::Damaged(byte) => numbered_line(alloc, b"input damaged at byte ", byte),
        Failure::Limit(byte) => numbered_line(alloc, b"input limit at byte ", byte),
        Failure::ReadFailed => Vec::from_slice(alloc, b"read failed\n"),
        Failure::WriteFailed => Vec::from_slice(alloc, b"write failed\n"),
        Failure::NoMemory => Vec::from_slice(alloc, b"out of memory\n"),
    }
}

/// A line that ends with a number.
fn numbered_line(alloc: Global, front: &[u8], number: u64) -> Result<Vec<u8>, AllocError>
    ensures value { IfOk result (λ line. line.items ≡ front.now ++ number_line number) }
{
    let mut line = Vec::from_slice(alloc, front)?;
    push_number(&mut line, number)?;
    Ok(line)
}

/// Appends a number and a newline.
fn push_number(text: &mut Vec<u8>, number: u64) -> Result<(), AllocError>
    ensures value { OnOk result (text.new.items ≡ text.old.items ++ number_line number) }
{
    let mut digits = Buffer::new();
    text.extend_from_slice(digits.format(number).as_bytes())?;
    text.push(b'\n')?;
    Ok(())
}
