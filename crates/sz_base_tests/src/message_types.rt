//! Message types as rows write them: of each field its number, its encoding unless that is the plain one, and its type. A message
//! in a message has its fields in braces.
use std::alloc::Global;
use std::mem;
use std::test::Fail;
use sz_types::{Encoding, Field, Fields, Text, Ty};

// A message type whose fields are being read, and what is known of its next field.
#[derive(Drop)]
struct Open {
    fields: Fields,
    number: u32,
    code: Encoding,
    is_array: bool,
}

impl Open {
    fn new(alloc: Global) -> Result<Open, Fail> {
        Ok(Open {
            fields: Fields::new(alloc)?,
            number: 0,
            code: Encoding::Plain,
            is_array: false,
        })
    }

    // Adds the field, whose elements or whose value have this type.
    fn add(&mut self, alloc: Global, ty: Ty) -> Result<(), Fail> {
        let ty = if self.is_array {
            Ty::Array(Box::new(alloc, ty)?)
        } else {
            ty
        };
        self.fields.push(Field {
            name: Text::from_str(alloc, "field")?,
            ty,
            number: self.number,
            code: self.code,
        })?;
        self.code = Encoding::Plain;
        self.is_array = false;
        Ok(())
    }

    // Reads a word that is no brace: a number, an encoding, or a type.
    fn read(&mut self, alloc: Global, word: &str) -> Result<(), Fail> {
        match word {
            "zigzag" => self.code = Encoding::Zigzag,
            "fixed32" => self.code = Encoding::Fixed32,
            "fixed64" => self.code = Encoding::Fixed64,
            "array" => self.is_array = true,
            "bool" => self.add(alloc, Ty::Bool)?,
            "int" => self.add(alloc, Ty::Int)?,
            "time" => self.add(alloc, Ty::Time)?,
            "string" => self.add(alloc, Ty::Str)?,
            "bytes" => self.add(alloc, Ty::Bytes)?,
            _ => self.number = word.parse::<u32>().ok().ok_or("no word of a type")?,
        }
        Ok(())
    }
}

/// The message type with these fields.
pub(crate) fn type_of(alloc: Global, text: &str) -> Result<Ty, Fail> {
    let mut outer = Vec::new(alloc);
    let mut inner = Open::new(alloc)?;
    for word in text.split_whitespace() {
        match word {
            "{" => outer.push(mem::replace(&mut inner, Open::new(alloc)?))?,
            "}" => {
                let around = outer.pop().ok_or("a brace too many")?;
                let message = mem::replace(&mut inner, around);
                inner.add(alloc, Ty::Proto(message.fields))?;
            }
            _ => inner.read(alloc, word)?,
        }
    }
    Ok(Ty::Proto(inner.fields))
}
