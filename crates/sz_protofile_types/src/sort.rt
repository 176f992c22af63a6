//! What fields are by their types.
ghost use Rattle.std.specs.Prelude.{◌≡◌, IfOk, option_map};
ghost use Rattle.std.specs.String.{string_bytes};
ghost use Rattle.sz_protofile.specs.Scalars.{plain, scalar_of, plain_of};
ghost use Rattle.sz_types.specs.declared.encoding.Encoding.TheVariants.{Plain as plainly_coded};
ghost use Rattle.sz_protofile.specs.declared.field.PlainKind.TheVariants.{Whole as whole_kind};
ghost use Rattle.sz_protofile.specs.Lookup.{looked_up};
ghost use Rattle.sz_protofile.specs.Fields.{sort_of_plain, sort_of_name, sort_by};

use std::alloc::Global;
use sz_protofile::{Plain, PlainKind, Scalar, Sort};
use sz_protofile_names::{Known, Names, Open, scalar_of};
use sz_types::{Encoding, NoMemory, Text};

// A whole number in this encoding.
fn whole(code: Encoding) -> Option<Plain>
    ensures value { result ≡ plain whole_kind code }
{
    Some(Plain {
        kind: PlainKind::Whole,
        code,
    })
}

// What else a field is kept with.
fn plainly(kind: PlainKind) -> Option<Plain>
    ensures value { result ≡ plain kind plainly_coded }
{
    Some(Plain {
        kind,
        code: Encoding::Plain,
    })
}

// What a field of such a type is kept with.
fn plain_of(scalar: Scalar) -> Option<Plain>
    ensures value { result ≡ plain_of scalar }
{
    match scalar {
        Scalar::Double | Scalar::Float => None,
        Scalar::Int32 | Scalar::Int64 | Scalar::Uint32 | Scalar::Uint64 => whole(Encoding::Plain),
        Scalar::Sint32 | Scalar::Sint64 => whole(Encoding::Zigzag),
        Scalar::Fixed32 | Scalar::Sfixed32 => whole(Encoding::Fixed32),
        Scalar::Fixed64 | Scalar::Sfixed64 => whole(Encoding::Fixed64),
        Scalar::Bool => plainly(PlainKind::Truth),
        Scalar::String => plainly(PlainKind::Str),
        Scalar::Bytes => plainly(PlainKind::Bytes),
    }
}

// What a field of a scalar's type is.
fn sort_of_plain(plain: Option<Plain>) -> Sort
    ensures value { result ≡ sort_of_plain plain }
{
    match plain {
        Some(plain) => Sort::Kept(plain),
        None => Sort::Unkept,
    }
}

// What a field is whose type has this full name.
fn sort_of_name(messages: &Names, name: Option<String>) -> Sort
    ensures value { result ≡ sort_of_name messages.now (option_map string_bytes name) }
{
    match name {
        Some(name) => {
            if messages.has(name.as_str()) {
                Sort::Message(Text::from_string(name))
            } else {
                Sort::Kept(Plain {
                    kind: PlainKind::Whole,
                    code: Encoding::Plain,
                })
            }
        }
        None => Sort::Unkept,
    }
}

// What a field is by the word for its type.
pub fn sort_of(
    alloc: Global,
    known: &Known,
    messages: &Names,
    around: &[Open],
    word: &str,
) -> Result<Sort, NoMemory>
    ensures value { IfOk result (λ sort. sort ≡ sort_by (scalar_of word.now) messages.now (looked_up known.now around.now word.now)) }
{
    match scalar_of(word) {
        Some(scalar) => Ok(sort_of_plain(plain_of(scalar))),
        None => Ok(sort_of_name(messages, known.looked_up(alloc, around, word)?)),
    }
}
