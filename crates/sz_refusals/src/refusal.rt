//! Why a program is refused, and the line that says so.
ghost use Rattle.std.specs.Prelude.{◌≡◌, ◌++◌, [], IfOk, OnOk};
ghost use Rattle.std.specs.Option.{unwrap_or};
ghost use Rattle.sz_refusals.specs.Refusing.{refusal_at};
ghost use Rattle.sz_refusals.specs.Lines.{name_text, place_text, refusal_line};

use itoa::Buffer;
use std::alloc::{AllocError, Global};
use sz_check_rules::Cause;
use sz_types::{Place, Text};

/// The most bytes of a program's text.
pub const MOST_PROGRAM_BYTES: usize = 1_048_576;

/// The place of a text's first byte.
pub const FIRST_PLACE: Place = Place { line: 1, column: 1 };

/// A refusal: its cause, the place that it names, and the name that its line has, if it has one.
#[derive(Debug)]
pub struct Refusal {
    pub cause: Cause,
    pub place: Place,
    pub name: Option<Text>,
}

impl Drop for Refusal {
    fn drop(self) {
        let Refusal {
            cause: _,
            place: _,
            name: _,
        } = self;
    }
}

impl Refusal {
    /// The refusal for a cause at a place, without a name.
    pub fn at(cause: Cause, place: Place) -> Refusal
        ensures value { result ≡ refusal_at cause place }
    {
        Refusal {
            cause,
            place,
            name: None,
        }
    }

    /// The bytes of its name, or none.
    pub fn name_bytes(&self) -> &[u8]
        ensures value { result.now ≡ unwrap_or self.now.name [] }
    {
        match &self.name {
            Some(name) => name.as_bytes(),
            None => b"",
        }
    }
}

/// The line of a refusal, with its newline.
pub fn refusal_line(alloc: Global, refusal: &Refusal) -> Result<Vec<u8>, AllocError>
    ensures value { IfOk result (λ line. line.items ≡ refusal_line refusal.now) }
{
    let mut line = Vec::new(alloc);
    line.extend_from_slice(b"program: ")?;
    line.extend_from_slice(refusal.cause.text().as_bytes())?;
    push_name(&mut line, &refusal.name)?;
    line.extend_from_slice(b" at ")?;
    push_place(&mut line, refusal.place)?;
    line.push(b'\n')?;
    Ok(line)
}

/// Appends the name of a refusal, if it has one.
pub fn push_name(line: &mut Vec<u8>, name: &Option<Text>) -> Result<(), AllocError>
    ensures value { OnOk result (line.new.items ≡ line.old.items ++ name_text name.now) }
{
    if let Some(name) = name {
        line.extend_from_slice(b": ")?;
        line.extend_from_slice(name.as_bytes())?;
    }
    Ok(())
}

/// Appends a place: its line and its column.
pub fn push_place(line: &mut Vec<u8>, place: Place) -> Result<(), AllocError>
    ensures value { OnOk result (line.new.items ≡ line.old.items ++ place_text place) }
{
    let mut digits = Buffer::new();
    line.extend_from_slice(digits.format(place.line).as_bytes())?;
    line.push(b':')?;
    line.extend_from_slice(digits.format(place.column).as_bytes())?;
    Ok(())
}
