//! Whole numbers in fields.
ghost use Rattle.std.specs.Prelude.{◌≡◌, ℕ, List};
ghost use Rattle.std.specs.Int.{w32, w64, cast_signed};
ghost use Rattle.sz_wire.specs.Field.{content_in};
ghost use Rattle.sz_proto.specs.Elements.{unzigzag, from_varint, number_in, truth_in};

use sz_types::Encoding;
use sz_wire::WireKind;

/// The number that a zigzag number stands for: 0, -1, 1, -2 and so on.
pub(crate) fn unzigzag(number: u64) -> i64
    ensures value { result ≡ unzigzag number }
{
    let half = (number / 2) as i64;
    if number % 2 == 0 { half } else { -1 - half }
}

/// The number that a varint stands for.
pub(crate) fn from_varint(code: Encoding, number: u64) -> i64
    ensures value { result ≡ from_varint code number }
{
    match code {
        Encoding::Zigzag => unzigzag(number),
        Encoding::Plain => number.cast_signed(),
        Encoding::Fixed32 => number.cast_signed(),
        Encoding::Fixed64 => number.cast_signed(),
    }
}

/// The number that eight bytes stand for, with its sign.
pub(crate) fn from_eight(number: u64) -> i64
    ensures value { result ≡ cast_signed w64 number }
{
    number.cast_signed()
}

/// The number that four bytes stand for, with its sign.
pub(crate) fn from_four(number: u32) -> i64
    ensures value { result ≡ cast_signed w32 number }
{
    i64::from(number.cast_signed())
}

/// The whole number that an occurrence holds, if a field of whole numbers takes it. Only varints are zigzag.
pub(crate) fn number_in(code: Encoding, kind: WireKind) -> Option<i64>
    ensures value { (bytes : List ℕ) → result ≡ number_in code (content_in bytes kind) }
{
    match kind {
        WireKind::Varint(number) => Some(from_varint(code, number)),
        WireKind::Eight(number) => Some(from_eight(number)),
        WireKind::Four(number) => Some(from_four(number)),
        WireKind::Span(_, _) => None,
        WireKind::Group => None,
    }
}

/// The truth value that an occurrence holds, if a field of truth values takes it.
pub(crate) fn truth_in(kind: WireKind) -> Option<bool>
    ensures value { (bytes : List ℕ) → result ≡ truth_in (content_in bytes kind) }
{
    match kind {
        WireKind::Varint(number) => Some(number != 0),
        WireKind::Eight(_) => None,
        WireKind::Four(_) => None,
        WireKind::Span(_, _) => None,
        WireKind::Group => None,
    }
}
