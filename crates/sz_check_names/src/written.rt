//! Named types, in which a name is the number of the type that it stands for.
//!
//! A named type is kept whole where it is soon made, and else as it is written. So all of them together take no more than their texts,
//! but for a few boxes at each name, however large they are with all names written out.
ghost use Rattle.std.specs.Prelude.{◌≡◌, ◌++◌, ◌∷◌, [], length, map, false, IfOk, OnErr};
ghost use Rattle.sz_types.specs.Seen.{seen, seen_fields};
ghost use Rattle.sz_check_rules.specs.JudgingTypes.{shape_of};
ghost use Rattle.sz_check_names.specs.Sorts.{sort_at};
ghost use Rattle.sz_check_names.specs.Written.{shape_in, field_in, type_at, shapes_of};

use crate::number::small;
use crate::sort::{Sort, sort_of};
use crate::waiting::beside;
use std::alloc::{AllocError, Global};
use std::marker::Model;
use sz_tree::BasicType;
use sz_types::{Encoding, Field, Fields, Text, Ty, copy_ty};

/// The type that a word stands for.
pub fn basic_type(basic: BasicType) -> Ty
    ensures value { seen result ≡ shape_of basic }
{
    match basic {
        BasicType::Bool => Ty::Bool,
        BasicType::Int => Ty::Int,
        BasicType::String => Ty::Str,
        BasicType::Bytes => Ty::Bytes,
        BasicType::Time => Ty::Time,
    }
}

/// A type as it is written.
#[cycle(written)]
pub enum Written {
    Basic(BasicType),
    Array(Box<Written>),
    Map(Box<Written>, Box<Written>),
    Tuple(Vec<WrittenField>),
    Proto(Vec<WrittenField>),
    /// The named type with this number, counted from 0 in the order of the program.
    Named(u32),
    /// A type with all names in it written out.
    Whole(Ty),
}

impl Drop for Written {
    #[cycle(drop)]
    fn drop(self) {
        match self {
            Written::Basic(_)
            | Written::Array(_)
            | Written::Map(_, _)
            | Written::Tuple(_)
            | Written::Proto(_)
            | Written::Named(_)
            | Written::Whole(_) => {}
        }
    }
}

/// A part of a tuple, or a field of a message.
#[cycle(written)]
pub struct WrittenField {
    pub name: Text,
    pub ty: Written,
    pub number: u32,
    pub code: Encoding,
}

impl Drop for WrittenField {
    #[cycle(drop)]
    fn drop(self) {
        let WrittenField {
            name: _,
            ty: _,
            number: _,
            code: _,
        } = self;
    }
}

/// The named types of a program by number. Contracts see them with all names written out.
pub struct NamedTypes {
    stored: Vec<Written>,
}

impl Drop for NamedTypes {
    fn drop(self) {
        let NamedTypes { stored: _ } = self;
    }
}

impl Model for NamedTypes {
    ghost use Rattle.std.specs.Prelude.{List};
    ghost use Rattle.sz_types.specs.Data.{Shape};
    ghost use Rattle.sz_types.specs.Code.{shapes_code};
    ghost use Rattle.sz_check_names.specs.Written.{shapes_of};

    ghost Value = { List Shape };

    ghost coded = { shapes_code };

    ghost view = { λ types. shapes_of types.stored.items };
}

/// A named type, lent with those that it is built from.
#[derive(Clone, Copy)]
pub struct NamedType<'k> {
    pub types: &'k NamedTypes,
    pub number: u32,
}

impl NamedTypes {
    /// No types. It takes no memory.
    pub fn new(alloc: Global) -> NamedTypes
        ensures value { result ≡ [] }
    {
        NamedTypes {
            stored: Vec::new(alloc),
        }
    }

    /// Where its parts are.
    pub fn alloc(&self) -> Global {
        *self.stored.allocator()
    }

    /// The number of types.
    pub fn len(&self) -> usize
        ensures value { result ≡ length self.now }
    {
        self.stored.len()
    }

    /// One type more, with its number. It is made here, if it is soon made.
    pub fn add(&mut self, written: Written) -> Result<u32, AllocError>
        ensures number { IfOk result (λ number. number ≡ length self.old) }
        ensures ok { IfOk result (λ _. self.new ≡ self.old ++ shape_in self.old written ∷ []) }
        ensures err { OnErr result (self.new ≡ self.old) }
    {
        let (number, written) = beside(small(self.stored.len()), written)?;
        let kept = as_kept(self.alloc(), written, self.stored.as_slice())?;
        self.stored.push(kept)?;
        Ok(number)
    }

    // What a field of a message holds of the type.
    pub fn sort_of(&self, written: &Written) -> Sort
        ensures value { result ≡ sort_at false (shape_in self.now written.now) }
    {
        sort_of(written, self.stored.as_slice(), false)
    }

    /// The type, with all names written out. A name of a type that is kept whole takes one copy of it.
    pub fn write_out(&self, written: &Written) -> Result<Ty, AllocError>
        ensures value { IfOk result (λ ty. seen ty ≡ shape_in self.now written.now) }
    {
        write_out(self.alloc(), written, self.stored.as_slice())
    }
}

impl NamedType<'_> {
    /// The type, with all names written out.
    pub fn write_out(self) -> Result<Ty, AllocError>
        ensures value { IfOk result (λ ty. seen ty ≡ type_at self.entry.types.now self.entry.number) }
    {
        self.types.write_out(&Written::Named(self.number))
    }
}

// A type is soon copied where its copy makes fewer boxes than this. It makes one for each array and two for each map, down to the
// tuples and messages, whose fields copies share. A map of a named map to itself has twice the boxes of that one, so that without a
// bound the last of a hundred short declarations couldn't be made at all.
const MANY_BOXES: u32 = 16;

// How many of these boxes are left after a copy of the type.
fn boxes_left(ty: &Ty, boxes: u32) -> u32 {
    if boxes == 0 {
        return 0;
    }
    match ty {
        Ty::Array(element) => boxes_left(element, boxes - 1),
        Ty::Map(key, value) => boxes_left(value, boxes_left(key, boxes - 1).saturating_sub(1)),
        _ => boxes,
    }
}

// Whether the named type is kept whole, and is soon copied.
fn is_soon_copied(named: Option<&Written>) -> bool {
    match named {
        Some(Written::Whole(ty)) => boxes_left(ty, MANY_BOXES) > 0,
        _ => false,
    }
}

// Whether each name in it stands for a type that is soon copied, so that it is made in a few steps for each word of its text.
#[cycle(soon)]
fn is_soon_made(written: &Written, types: &[Written]) -> bool {
    match written {
        Written::Basic(_) => true,
        Written::Array(element) => is_soon_made(element, types),
        Written::Map(key, value) => is_soon_made(key, types) && is_soon_made(value, types),
        Written::Tuple(fields) | Written::Proto(fields) => {
            are_soon_made(fields.as_slice(), types)
        }
        Written::Named(number) => is_soon_copied(types.get(*number as usize)),
        // It is made already.
        Written::Whole(_) => false,
    }
}

// Whether the types of all fields are soon made.
#[cycle(soon)]
fn are_soon_made(fields: &[WrittenField], types: &[Written]) -> bool {
    for field in fields {
        if !is_soon_made(&field.ty, types) {
            return false;
        }
    }
    true
}

// The type as it is kept: whole, where it is soon made.
fn as_kept(alloc: Global, written: Written, types: &[Written]) -> Result<Written, AllocError>
    ensures value { IfOk result (λ kept. shape_in (shapes_of types.now) kept ≡ shape_in (shapes_of types.now) written) }
{
    if !is_soon_made(&written, types) {
        return Ok(written);
    }
    let made = write_out(alloc, &written, types);
    drop(written);
    Ok(Written::Whole(made?))
}

// The type, with all names written out by these types. A named type is written with those before it alone.
#[cycle(write_out)]
fn write_out(alloc: Global, written: &Written, types: &[Written]) -> Result<Ty, AllocError>
    ensures value { IfOk result (λ ty. seen ty ≡ shape_in (shapes_of types.now) written.now) }
{
    match written {
        Written::Basic(basic) => Ok(basic_type(*basic)),
        Written::Array(element) => Ok(Ty::Array(write_out_part(alloc, element, types)?)),
        Written::Map(key, value) => {
            let key = write_out_part(alloc, key, types)?;
            let value = write_out_part(alloc, value, types)?;
            Ok(Ty::Map(key, value))
        }
        Written::Tuple(fields) => Ok(Ty::Tuple(write_out_fields(alloc, fields.as_slice(), types)?)),
        Written::Proto(fields) => Ok(Ty::Proto(write_out_fields(alloc, fields.as_slice(), types)?)),
        Written::Named(number) => {
            let number = *number as usize;
            match types.get(number) {
                Some(named) => write_out(alloc, named, &types[..number]),
                // No name has a number that no type has.
                None => Ok(Ty::Bool),
            }
        }
        Written::Whole(ty) => copy_ty(alloc, ty),
    }
}

// The same on the heap, as a part of another type.
#[cycle(write_out)]
fn write_out_part(
    alloc: Global,
    written: &Written,
    types: &[Written],
) -> Result<Box<Ty>, AllocError>
    ensures value { IfOk result (λ made. seen made.value ≡ shape_in (shapes_of types.now) written.now) }
{
    Ok(Box::new(alloc, write_out(alloc, written, types)?)?)
}

// The fields, with all names in their types written out.
#[cycle(write_out)]
fn write_out_fields(
    alloc: Global,
    fields: &[WrittenField],
    types: &[Written],
) -> Result<Fields, AllocError>
    ensures value { IfOk result (λ made. seen_fields made ≡ map (field_in (shapes_of types.now)) fields.now) }
{
    let mut stored = Vec::with_capacity(alloc, fields.len())?;
    for field in fields {
        let name = Text::from_str(alloc, field.name.as_str())?;
        let (ty, name) = beside(write_out(alloc, &field.ty, types), name)?;
        stored.push(Field {
            name,
            ty,
            number: field.number,
            code: field.code,
        })?;
    }
    Ok(Fields::from_vec(alloc, stored)?)
}
