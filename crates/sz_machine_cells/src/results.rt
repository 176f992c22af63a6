//! What operators, functions, conversions and composites make of operands.
ghost use Rattle.std.specs.Prelude.{◌≡◌, ◌∷◌, [], ℕ, pos, length, IfOk, Some, true, take, drop};
ghost use Rattle.sz_types.specs.Seen.{seen as seen_type};
ghost use Rattle.sz_value.specs.Data.{bytes, int, str};
ghost use Rattle.sz_value.specs.Texts.{is_ascii};
ghost use Rattle.sz_builtin.specs.Conversions.{convert};
ghost use Rattle.sz_builtin.specs.Places.{slice, index};
ghost use Rattle.sz_builtin.specs.Views.{seen_view};
ghost use Rattle.sz_world_rules.specs.Operations.{unary_of, binary_of, applied, converted_plainly, message_of, decoded_as, array_of, tuple_of};
ghost use Rattle.sz_world_rules.specs.Operations.{element_of, slice_of, part_at, part_of, definedness};
ghost use Rattle.sz_machine_cells.specs.Results.{array_of_all, tuple_of_all};

use crate::buffers::{lying, part_bytes};
use crate::cell::{Cell, Form};
use crate::finding::place_in;
use std::alloc::Global;
use std::rc::Rc;
use sz_builtin::{
    Ascii, Kind, View, binary_of_views, builtin_of_one, builtin_of_two, bytes_between,
    convert_view, index_of_views, slice_of_view, text_between, unary_of_view,
};
use sz_proto::decode;
use sz_types::{BinOp, Builtin, Ty, UnOp};
use sz_value::{List, NoMemory, Value};

/// What the operator makes of an operand.
pub fn unary_of<'a>(alloc: Global, op: UnOp, x: &Cell<'_>) -> Result<Cell<'a>, NoMemory>
    ensures value { IfOk result (λ made. made ≡ unary_of op x.now) }
{
    match x.view() {
        Some(a) => Cell::of_slot(alloc, unary_of_view(op, &a)),
        None => Ok(Cell::undefined()),
    }
}

/// What the operator makes of two operands.
pub fn binary_of<'a>(
    alloc: Global,
    op: BinOp,
    x: &Cell<'_>,
    y: &Cell<'_>,
) -> Result<Cell<'a>, NoMemory>
    ensures value { IfOk result (λ made. made ≡ binary_of op x.now y.now) }
{
    match (x.view(), y.view()) {
        (Some(a), Some(b)) => Cell::of_slot(alloc, binary_of_views(alloc, op, &a, &b)?),
        _ => Ok(Cell::undefined()),
    }
}

/// What the function makes of its one argument, which is looked at where it is.
pub fn applied_to_one<'a>(alloc: Global, which: Builtin, x: &Cell<'_>) -> Result<Cell<'a>, NoMemory>
    ensures value { IfOk result (λ made. made ≡ applied which (x.now ∷ [])) }
{
    match x.view() {
        Some(a) => Cell::of_slot(alloc, builtin_of_one(alloc, which, &a)?),
        None => Ok(Cell::undefined()),
    }
}

/// What the function makes of its two arguments, which are looked at where they are.
pub fn applied_to_two<'a>(
    alloc: Global,
    which: Builtin,
    x: &Cell<'_>,
    y: &Cell<'_>,
) -> Result<Cell<'a>, NoMemory>
    ensures value { IfOk result (λ made. made ≡ applied which (x.now ∷ y.now ∷ [])) }
{
    match (x.view(), y.view()) {
        (Some(a), Some(b)) => Cell::of_slot(alloc, builtin_of_two(alloc, which, &a, &b)?),
        _ => Ok(Cell::undefined()),
    }
}

/// What an operand becomes by a conversion to the type. Bytes stay bytes where that is a proto type: `decoded` reads them.
pub fn converted<'a>(alloc: Global, to: &Ty, x: &Cell<'_>) -> Result<Cell<'a>, NoMemory>
    ensures value { IfOk result (λ made. made ≡ converted_plainly (seen_type to.now) x.now) }
{
    match x.view() {
        Some(a) => became(alloc, to, &a),
        None => Ok(Cell::undefined()),
    }
}

// What a value becomes by a conversion to the type.
fn became<'a>(alloc: Global, to: &Ty, value: &View<'_>) -> Result<Cell<'a>, NoMemory>
    ensures value { IfOk result (λ made. made ≡ convert (seen_view value.now) (seen_type to.now)) }
{
    match to {
        Ty::Proto(_) => Cell::of_value(alloc, value.owned(alloc)?),
        Ty::Bool
        | Ty::Int
        | Ty::Time
        | Ty::Str
        | Ty::Bytes
        | Ty::Array(_)
        | Ty::Map(_, _)
        | Ty::Tuple(_) => Cell::of_slot(alloc, convert_view(alloc, value, to)?),
    }
}

/// The message that an operand's bytes are by the type. It is undefined where the operand isn't bytes.
pub fn decoded<'a>(alloc: Global, by: &Ty, x: &Cell<'_>) -> Result<Cell<'a>, NoMemory>
    ensures value { IfOk result (λ made. made ≡ decoded_as (seen_type by.now) x.now) }
{
    match x.view() {
        Some(a) => message_of(alloc, by, &a),
        None => Ok(Cell::undefined()),
    }
}

// The message that a value is by the type: bytes alone are one.
fn message_of<'a>(alloc: Global, by: &Ty, value: &View<'_>) -> Result<Cell<'a>, NoMemory>
    ensures value { IfOk result (λ made. made ≡ message_of (seen_type by.now) (seen_view value.now)) }
{
    match value.kind() {
        Kind::Bytes(contents) => Cell::of_slot(alloc, decode(alloc, by, contents)?),
        _ => Ok(Cell::undefined()),
    }
}

/// The array of these elements, if they are all there.
pub fn array_of<'a>(alloc: Global, elements: Option<List>) -> Result<Cell<'a>, NoMemory>
    ensures value { IfOk result (λ made. made ≡ array_of_all elements) }
{
    match elements {
        Some(list) => Cell::of_value(alloc, Value::Array(list)),
        None => Ok(Cell::undefined()),
    }
}

/// The tuple of these parts, if they are all there.
pub fn tuple_of<'a>(alloc: Global, parts: Option<List>) -> Result<Cell<'a>, NoMemory>
    ensures value { IfOk result (λ made. made ≡ tuple_of_all parts) }
{
    match parts {
        Some(list) => Cell::of_value(alloc, Value::Tuple(list)),
        None => Ok(Cell::undefined()),
    }
}

/// The element of a value under an index or a key, where it stands.
pub fn element_of<'a>(alloc: Global, x: &Cell<'a>, i: &Cell<'_>) -> Result<Cell<'a>, NoMemory>
    ensures value { IfOk result (λ made. made ≡ element_of x.now i.now) }
{
    match (x.view(), i.view()) {
        (Some(base), Some(at)) => element_in(alloc, x, &base, &at),
        _ => Ok(Cell::undefined()),
    }
}

// The element of a value that is seen in this cell.
fn element_in<'a>(
    alloc: Global,
    x: &Cell<'a>,
    base: &View<'_>,
    at: &View<'_>,
) -> Result<Cell<'a>, NoMemory>
    requires same { x.now ≡ Some (seen_view base.now) }
    ensures value { IfOk result (λ made. made ≡ index (seen_view base.now) (seen_view at.now)) }
{
    match place_in(alloc, base, at)? {
        Some(n) => x.part(alloc, n),
        None => Cell::of_slot(alloc, index_of_views(alloc, base, at)?),
    }
}

/// The part of a value between two places. Of bytes or a text that lie in a buffer it is one that lies there too, unless it is longer than 65,535 bytes
/// or stands after more than 2^32 - 1.
#[tactic(auto, using(crate::proofs::ResultLemmas::no_beginning, crate::proofs::ResultLemmas::no_end))]
pub fn slice_of<'a>(
    alloc: Global,
    x: Cell<'_>,
    i: &Cell<'_>,
    j: &Cell<'_>,
) -> Result<Cell<'a>, NoMemory>
    ensures value { IfOk result (λ made. made ≡ slice_of x.entry i.now j.now) }
{
    let Some(from) = i.view() else {
        return Ok(Cell::undefined());
    };
    let Some(to) = j.view() else {
        return Ok(Cell::undefined());
    };
    match (from.kind(), to.kind()) {
        (Kind::Int(from), Kind::Int(to)) => slice_between(alloc, x, from, to),
        _ => Ok(Cell::undefined()),
    }
}

/// The same between two places that are whole numbers.
pub fn slice_between<'a>(
    alloc: Global,
    x: Cell<'_>,
    from: i64,
    to: i64,
) -> Result<Cell<'a>, NoMemory>
    ensures value { IfOk result (λ made. made ≡ slice_of x.entry (Some (int from)) (Some (int to))) }
{
    match x.form {
        Form::Buffer(buffer) => part_of_buffer(alloc, buffer, from, to),
        Form::Part(count, before, buffer) => part_of_part(alloc, count, before, buffer, from, to),
        Form::Text(count, before, buffer) => part_of_text(alloc, count, before, buffer, from, to),
        form => part_of_any(alloc, &Cell { form }, from, to),
    }
}

// The part between two places of the bytes of a buffer.
fn part_of_buffer<'a>(
    alloc: Global,
    buffer: Rc<Vec<u8>>,
    from: i64,
    to: i64,
) -> Result<Cell<'a>, NoMemory>
    ensures value { IfOk result (λ made. made ≡ slice (bytes buffer.value.items) from to) }
{
    match bytes_between(buffer.as_ref().as_slice(), from, to) {
        Some((before, count)) => Cell::of_part(alloc, buffer, before, count),
        None => Ok(Cell::undefined()),
    }
}

// The part between two places of so many bytes of a buffer, after so many others.
#[tactic(auto, using(crate::proofs::ResultLemmas::part_in_part))]
fn part_of_part<'a>(
    alloc: Global,
    count: u16,
    before: u32,
    buffer: Rc<Vec<u8>>,
    from: i64,
    to: i64,
) -> Result<Cell<'a>, NoMemory>
    ensures value { IfOk result (λ made. made ≡ slice (bytes (take count (drop before buffer.value.items))) from to) }
{
    match bytes_between(part_bytes(count, before, &buffer), from, to) {
        Some((more, count)) => Cell::of_part(alloc, buffer, before as usize + more, count),
        None => Ok(Cell::undefined()),
    }
}

// The same of so many bytes as a text.
#[tactic(auto, using(crate::proofs::ResultLemmas::part_in_part, crate::proofs::ResultLemmas::ascii_in_part))]
fn part_of_text<'a>(
    alloc: Global,
    count: u16,
    before: u32,
    buffer: Rc<Vec<u8>>,
    from: i64,
    to: i64,
) -> Result<Cell<'a>, NoMemory>
    requires ascii { is_ascii (take count (drop before buffer.value.items)) ≡ true }
    ensures value { IfOk result (λ made. made ≡ slice (str (take count (drop before buffer.value.items))) from to) }
{
    let octets = part_bytes(count, before, &buffer);
    match text_between(&Ascii { octets }, from, to) {
        Some((more, count)) => Cell::of_text(alloc, buffer, before as usize + more, count),
        None => Ok(Cell::undefined()),
    }
}

// The part between two places of any slot.
#[inline(never)]
fn part_of_any<'a>(alloc: Global, x: &Cell<'_>, from: i64, to: i64) -> Result<Cell<'a>, NoMemory>
    ensures value { IfOk result (λ made. made ≡ slice_of x.now (Some (int from)) (Some (int to))) }
{
    match x.view() {
        Some(base) => part_anew(alloc, &base, from, to),
        None => Ok(Cell::undefined()),
    }
}

// The part between two places of a value, in memory of its own.
fn part_anew<'a>(alloc: Global, base: &View<'_>, from: i64, to: i64) -> Result<Cell<'a>, NoMemory>
    ensures value { IfOk result (λ made. made ≡ slice (seen_view base.now) from to) }
{
    match base.kind() {
        Kind::Bytes(contents) => bytes_anew(alloc, contents, from, to),
        _ => Cell::of_slot(alloc, slice_of_view(alloc, base, from, to)?),
    }
}

// The part between two places of bytes, in memory of its own.
fn bytes_anew<'a>(alloc: Global, contents: &[u8], from: i64, to: i64) -> Result<Cell<'a>, NoMemory>
    ensures value { IfOk result (λ made. made ≡ slice (bytes contents.now) from to) }
{
    match bytes_between(contents, from, to) {
        Some((before, count)) => Cell::of_bytes(alloc, lying(contents, before, count)),
        None => Ok(Cell::undefined()),
    }
}

/// The part of a tuple or a message at a place, where it stands.
pub fn part_of<'a>(alloc: Global, n: u32, x: &Cell<'a>) -> Result<Cell<'a>, NoMemory>
    ensures value { IfOk result (λ made. made ≡ part_of n x.now) }
{
    match x.view() {
        Some(a) => part_in(alloc, n as usize, x, &a),
        None => Ok(Cell::undefined()),
    }
}

// The part of a value that is seen in this cell.
fn part_in<'a>(
    alloc: Global,
    n: usize,
    x: &Cell<'a>,
    value: &View<'_>,
) -> Result<Cell<'a>, NoMemory>
    requires same { x.now ≡ Some (seen_view value.now) }
    ensures value { IfOk result (λ made. made ≡ part_at n (seen_view value.now)) }
{
    match value.kind() {
        Kind::Tuple(_) => x.part(alloc, n),
        _ => Ok(Cell::undefined()),
    }
}

/// Whether an operand is defined.
pub fn definedness<'a>(x: &Cell<'_>) -> Cell<'a>
    ensures value { result ≡ definedness x.now }
{
    Cell::of_bool(x.is_defined())
}
