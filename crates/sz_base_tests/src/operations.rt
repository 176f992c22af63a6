//! What operators, predeclared functions and conversions make of values, row by row.
use crate::given::Given::{Array, Bool, Bytes, Int, Map, Names, Nothing, Str, Texts, Time, Tuple};
use crate::given::{Given, list_of, slot_of};
use crate::looks::answer_of_views;
use crate::operations::Call::{Binary, Index, Of, Slice, To, Unary};
use std::alloc::Global;
use sz_builtin::{View, binary, builtin, convert_view, index, slice, unary};
use sz_types::BinOp::{
    Add, BitAnd, BitOr, BitXor, Div, Equal, Greater, GreaterEqual, Less, LessEqual, Mul, NotEqual,
    Rem, Shl, Shr, Sub,
};
use sz_types::Builtin::{HasKey, Keys, Len, StrFind};
use sz_types::UnOp::{Flip, Negate, Not, Plus};
use sz_types::{BinOp, Builtin, Fields, NoMemory, Ty, UnOp};
use sz_value::{List, Slot, Value, equal};

#[derive(Clone, Copy)]
pub(crate) enum Call {
    Binary(BinOp),
    Unary(UnOp),
    Index,
    // The part between two places.
    Slice(i64, i64),
    Of(Builtin),
    To(Wanted),
}

// The types to which values are converted.
#[derive(Clone, Copy)]
pub(crate) enum Wanted {
    Bool,
    Int,
    Time,
    Str,
    Bytes,
    // Of whole numbers, as the next ones.
    Array,
    Map,
    Tuple,
}

// A call, the values that it is given, one or two, and what it makes of them.
type Row = (Call, Given, Given, Given);

const ROWS: &[Row] = &[
    // Numbers, truths and times.
    (Binary(Add), Int(i64::MAX), Int(1), Int(i64::MIN)),
    (Binary(Add), Int(0), Int(0), Int(0)),
    (Binary(Sub), Int(i64::MIN), Int(1), Int(i64::MAX)),
    (Binary(Sub), Int(0), Int(i64::MIN), Int(i64::MIN)),
    (Binary(Mul), Int(i64::MAX), Int(2), Int(-2)),
    (Binary(Mul), Int(i64::MIN), Int(-1), Int(i64::MIN)),
    (Binary(Div), Int(-7), Int(2), Int(-3)),
    (Binary(Rem), Int(-7), Int(2), Int(-1)),
    (Binary(Div), Int(7), Int(-2), Int(-3)),
    (Binary(Rem), Int(7), Int(-2), Int(1)),
    (Binary(Div), Int(i64::MIN), Int(-1), Int(i64::MIN)),
    (Binary(Rem), Int(i64::MIN), Int(-1), Int(0)),
    (Binary(Div), Int(1), Int(0), Nothing),
    (Binary(Rem), Int(0), Int(0), Nothing),
    (Binary(Shl), Int(3), Int(63), Int(i64::MIN)),
    (Binary(Shr), Int(i64::MIN), Int(63), Int(-1)),
    (Binary(Shr), Int(-1), Int(0), Int(-1)),
    (Binary(Shl), Int(1), Int(64), Nothing),
    (Binary(Shr), Int(1), Int(-1), Nothing),
    (Binary(BitAnd), Int(-1), Int(i64::MIN), Int(i64::MIN)),
    (Binary(BitOr), Int(6), Int(3), Int(7)),
    (Binary(BitXor), Int(6), Int(3), Int(5)),
    (Unary(Negate), Int(i64::MIN), Nothing, Int(i64::MIN)),
    (Unary(Plus), Int(i64::MIN), Nothing, Int(i64::MIN)),
    (Unary(Flip), Int(0), Nothing, Int(-1)),
    (Unary(Not), Bool(true), Nothing, Bool(false)),
    (Unary(Negate), Time(1), Nothing, Nothing),
    (Binary(Sub), Time(5), Time(7), Int(-2)),
    (Binary(Add), Time(i64::MAX), Int(1), Time(i64::MIN)),
    (Binary(Sub), Time(i64::MIN), Int(1), Time(i64::MAX)),
    (Binary(Add), Time(1), Time(1), Nothing),
    // Strings, bytes and arrays are joined, and their parts stand at places that are counted from 0.
    (Binary(Add), Str(""), Str(""), Str("")),
    (Binary(Add), Str("ab"), Str("c"), Str("abc")),
    (Binary(Add), Str("añ"), Str("€b"), Str("añ€b")),
    (Binary(Add), Bytes(b""), Bytes(b""), Bytes(b"")),
    (Binary(Add), Bytes(b"ab"), Bytes(b"c"), Bytes(b"abc")),
    (
        Binary(Add),
        Bytes(b"\xff"),
        Bytes(b"\xc3\xb1"),
        Bytes(b"\xff\xc3\xb1"),
    ),
    (Binary(Add), Array(&[]), Array(&[]), Array(&[])),
    (Binary(Add), Array(&[5]), Array(&[6, 7]), Array(&[5, 6, 7])),
    (
        Binary(Add),
        Texts(&["a"]),
        Texts(&["b"]),
        Texts(&["a", "b"]),
    ),
    (Index, Str("añb€😀"), Int(1), Int(0xf1)),
    (Index, Str("añb€😀"), Int(2), Int(0x62)),
    (Index, Str("añb€😀"), Int(3), Int(0x20ac)),
    (Index, Str("añb€😀"), Int(4), Int(0x1f600)),
    (Index, Str("añb€😀"), Int(5), Nothing),
    (Index, Str("ab\u{7f}"), Int(2), Int(0x7f)),
    (Index, Str("ab\u{7f}"), Int(3), Nothing),
    (Index, Str("ab"), Int(-1), Nothing),
    (Index, Bytes(b"\x00\xff"), Int(1), Int(255)),
    (Index, Bytes(b"\x00\xff"), Int(2), Nothing),
    (Index, Array(&[5, 6]), Int(0), Int(5)),
    (Index, Array(&[5, 6]), Int(2), Nothing),
    (Index, Array(&[]), Int(i64::MIN), Nothing),
    (Index, Texts(&["a", "bc"]), Int(1), Str("bc")),
    (Index, Map(&[(7, 70), (1, 10), (4, 40)]), Int(4), Int(40)),
    (Index, Map(&[(1, 5), (1, 6)]), Int(1), Int(6)),
    (Index, Map(&[]), Int(0), Nothing),
    (Index, Names(&[("a", "x"), ("b", "y")]), Str("b"), Str("y")),
    (Slice(1, 3), Str("añb€"), Nothing, Str("ñb")),
    (Slice(4, 4), Str("añb€"), Nothing, Str("")),
    (Slice(2, 5), Str("añb€"), Nothing, Nothing),
    (Slice(1, 3), Str("abcd"), Nothing, Str("bc")),
    (Slice(0, 0), Str(""), Nothing, Str("")),
    (Slice(3, 5), Str("abcd"), Nothing, Nothing),
    (Slice(5, 5), Str("abcd"), Nothing, Nothing),
    (Slice(2, 1), Str("abcd"), Nothing, Nothing),
    (Slice(-1, 1), Str("abcd"), Nothing, Nothing),
    (Slice(i64::MIN, i64::MAX), Str("abcd"), Nothing, Nothing),
    (
        Slice(0, 2),
        Bytes(b"\x07\x08\x09"),
        Nothing,
        Bytes(b"\x07\x08"),
    ),
    (
        Slice(1, 3),
        Bytes(b"\x07\x08\x09"),
        Nothing,
        Bytes(b"\x08\x09"),
    ),
    (Slice(3, 3), Bytes(b"\x07\x08\x09"), Nothing, Bytes(b"")),
    (Slice(1, 4), Bytes(b"\x07\x08\x09"), Nothing, Nothing),
    (Slice(0, 2), Array(&[7, 8, 9]), Nothing, Array(&[7, 8])),
    (Slice(1, 3), Array(&[7, 8, 9]), Nothing, Array(&[8, 9])),
    (Slice(3, 3), Array(&[7, 8, 9]), Nothing, Array(&[])),
    (Slice(1, 4), Array(&[7, 8, 9]), Nothing, Nothing),
    (Slice(1, 2), Texts(&["a", "bc"]), Nothing, Texts(&["bc"])),
    // Predeclared functions.
    (Of(Len), Str("añ€😀"), Nothing, Int(4)),
    (Of(Len), Str("abc"), Nothing, Int(3)),
    (Of(Len), Str(""), Nothing, Int(0)),
    (Of(Len), Bytes(b"\x00\xff"), Nothing, Int(2)),
    (Of(Len), Array(&[4, 4]), Nothing, Int(2)),
    (Of(Len), Map(&[(2, 0), (1, 0), (2, 1)]), Nothing, Int(2)),
    (
        Of(Keys),
        Map(&[(7, 70), (1, 10), (7, 0), (4, 40)]),
        Nothing,
        Array(&[1, 4, 7]),
    ),
    (
        Of(Keys),
        Map(&[(i64::MAX, 0), (i64::MIN, 0)]),
        Nothing,
        Array(&[i64::MIN, i64::MAX]),
    ),
    (Of(Keys), Map(&[]), Nothing, Array(&[])),
    (
        Of(Keys),
        Names(&[("b", "y"), ("a", "x")]),
        Nothing,
        Texts(&["a", "b"]),
    ),
    (Of(HasKey), Map(&[(7, 70), (1, 10)]), Int(7), Bool(true)),
    (Of(HasKey), Map(&[(7, 70), (1, 10)]), Time(7), Bool(false)),
    (
        Of(HasKey),
        Map(&[(i64::MAX, 0), (i64::MIN, 0)]),
        Int(i64::MAX),
        Bool(true),
    ),
    (Of(HasKey), Map(&[]), Int(0), Bool(false)),
    (Of(StrFind), Str("b"), Str("ñbb"), Int(1)),
    (Of(StrFind), Str("€"), Str("😀a€"), Int(2)),
    (Of(StrFind), Str("cab"), Str("abcab"), Int(2)),
    (Of(StrFind), Str("ñ"), Str("aa"), Int(-1)),
    (Of(StrFind), Str(""), Str("ñb"), Int(0)),
    (Of(StrFind), Str(""), Str(""), Int(0)),
    (Of(StrFind), Str("a"), Str(""), Int(-1)),
    (Of(StrFind), Bytes(b"b"), Bytes(b"\xc3\xb1bb"), Int(2)),
    (
        Of(StrFind),
        Bytes(b"\xe2\x82\xac"),
        Bytes(b"\xf0\x9f\x98\x80a\xe2\x82\xac"),
        Int(5),
    ),
    (Of(StrFind), Bytes(b"cab"), Bytes(b"abcab"), Int(2)),
    (Of(StrFind), Bytes(b"\xc3\xb1"), Bytes(b"aa"), Int(-1)),
    (Of(StrFind), Bytes(b""), Bytes(b"\xc3\xb1b"), Int(0)),
    (Of(StrFind), Bytes(b""), Bytes(b""), Int(0)),
    (Of(StrFind), Bytes(b"a"), Bytes(b""), Int(-1)),
    (Of(StrFind), Str("a"), Nothing, Nothing),
    // Conversions.
    (To(Wanted::Int), Str("+007"), Nothing, Int(7)),
    (To(Wanted::Int), Str("-0"), Nothing, Int(0)),
    (
        To(Wanted::Int),
        Str("9223372036854775807"),
        Nothing,
        Int(i64::MAX),
    ),
    (
        To(Wanted::Int),
        Str("-9223372036854775808"),
        Nothing,
        Int(i64::MIN),
    ),
    (
        To(Wanted::Int),
        Str("9223372036854775808"),
        Nothing,
        Nothing,
    ),
    (
        To(Wanted::Int),
        Str("-9223372036854775809"),
        Nothing,
        Nothing,
    ),
    (
        To(Wanted::Int),
        Str("18446744073709551617"),
        Nothing,
        Nothing,
    ),
    (To(Wanted::Int), Str(""), Nothing, Nothing),
    (To(Wanted::Int), Str("-"), Nothing, Nothing),
    (To(Wanted::Int), Str("+-1"), Nothing, Nothing),
    (To(Wanted::Int), Str(" 1"), Nothing, Nothing),
    (To(Wanted::Int), Str("1 "), Nothing, Nothing),
    (To(Wanted::Int), Str("0x1"), Nothing, Nothing),
    (To(Wanted::Int), Str("\u{661}"), Nothing, Nothing),
    (To(Wanted::Int), Bytes(b"-12"), Nothing, Int(-12)),
    (To(Wanted::Int), Bytes(b"\x31\xff"), Nothing, Nothing),
    (To(Wanted::Int), Bool(false), Nothing, Int(0)),
    (To(Wanted::Int), Bool(true), Nothing, Int(1)),
    (To(Wanted::Int), Time(i64::MIN), Nothing, Int(i64::MIN)),
    (To(Wanted::Int), Int(i64::MAX), Nothing, Int(i64::MAX)),
    (
        To(Wanted::Str),
        Int(i64::MIN),
        Nothing,
        Str("-9223372036854775808"),
    ),
    (To(Wanted::Str), Int(0), Nothing, Str("0")),
    (To(Wanted::Str), Bool(false), Nothing, Str("false")),
    (To(Wanted::Str), Bool(true), Nothing, Str("true")),
    (To(Wanted::Str), Bytes(b"\xc3\xb1"), Nothing, Str("ñ")),
    (To(Wanted::Str), Bytes(b"\xc3"), Nothing, Nothing),
    (To(Wanted::Str), Time(0), Nothing, Nothing),
    (To(Wanted::Str), Str("añ"), Nothing, Str("añ")),
    (To(Wanted::Bytes), Str("añ"), Nothing, Bytes(b"a\xc3\xb1")),
    (To(Wanted::Bytes), Str(""), Nothing, Bytes(b"")),
    (To(Wanted::Bytes), Bytes(b"\xff"), Nothing, Bytes(b"\xff")),
    (To(Wanted::Time), Int(-5), Nothing, Time(-5)),
    (To(Wanted::Time), Int(i64::MAX), Nothing, Time(i64::MAX)),
    (To(Wanted::Time), Time(i64::MIN), Nothing, Time(i64::MIN)),
    (To(Wanted::Bool), Bool(false), Nothing, Bool(false)),
    (To(Wanted::Bool), Bool(true), Nothing, Bool(true)),
    (To(Wanted::Array), Array(&[-5]), Nothing, Array(&[-5])),
    (To(Wanted::Map), Map(&[(1, 2)]), Nothing, Map(&[(1, 2)])),
    (To(Wanted::Tuple), Tuple(&[1, 2]), Nothing, Tuple(&[1, 2])),
];

// In each row the first value is less than the second.
const LESS: &[(Given, Given)] = &[
    (Int(i64::MIN), Int(i64::MAX)),
    (Time(-1), Time(0)),
    (Str("z"), Str("ñ")),
    (Bytes(b"\x00\xff"), Bytes(b"\x01")),
    (Array(&[1]), Array(&[1, 0])),
];

// What the comparisons tell of a value and a greater one, the other way round, and of a value and itself.
const COMPARISONS: &[(BinOp, bool, bool, bool)] = &[
    (Equal, false, false, true),
    (NotEqual, true, true, false),
    (Less, true, false, false),
    (LessEqual, true, false, true),
    (Greater, false, true, false),
    (GreaterEqual, false, true, true),
];

// Whether the first of two values lies elsewhere, and whether the second does.
const LOOKS: &[(bool, bool)] = &[(true, false), (false, true), (true, true)];

// The tables come from calls, so that no proof sees what stands in them.
fn rows() -> &'static [Row] {
    ROWS
}

fn pairs() -> &'static [(Given, Given)] {
    LESS
}

fn comparisons() -> &'static [(BinOp, bool, bool, bool)] {
    COMPARISONS
}

fn looks() -> &'static [(bool, bool)] {
    LOOKS
}

fn answer(alloc: Global, call: Call, values: &List) -> Result<Slot, NoMemory> {
    match (call, values.as_slice()) {
        (Call::Binary(op), [a, b]) => binary(alloc, op, a, b),
        (Call::Unary(op), [a]) => Ok(unary(op, a)),
        (Call::Index, [base, place]) => index(alloc, base, place),
        (Call::Slice(from, to), [base]) => slice(alloc, base, from, to),
        (Call::Of(which), _) => builtin(alloc, which, values),
        (Call::To(wanted), [value]) => converted(alloc, &View::Whole(value), wanted),
        _ => Err(NoMemory),
    }
}

#[tactic(auto, using(sz_builtin::proofs::ForCallers::plain_bool, sz_builtin::proofs::ForCallers::plain_int, sz_builtin::proofs::ForCallers::plain_time, sz_builtin::proofs::ForCallers::plain_str, sz_builtin::proofs::ForCallers::plain_bytes))]
pub(crate) fn converted(alloc: Global, value: &View<'_>, wanted: Wanted) -> Result<Slot, NoMemory> {
    match wanted {
        Wanted::Bool => convert_view(alloc, value, &Ty::Bool),
        Wanted::Int => convert_view(alloc, value, &Ty::Int),
        Wanted::Time => convert_view(alloc, value, &Ty::Time),
        Wanted::Str => convert_view(alloc, value, &Ty::Str),
        Wanted::Bytes => convert_view(alloc, value, &Ty::Bytes),
        Wanted::Array => to_array(alloc, value),
        Wanted::Map => to_map(alloc, value),
        Wanted::Tuple => to_tuple(alloc, value),
    }
}

#[tactic(auto, using(sz_builtin::proofs::ForCallers::plain_array))]
fn to_array(alloc: Global, value: &View<'_>) -> Result<Slot, NoMemory> {
    let ty = Ty::Array(Box::new(alloc, Ty::Int)?);
    let made = convert_view(alloc, value, &ty);
    drop(ty);
    made
}

#[tactic(auto, using(sz_builtin::proofs::ForCallers::plain_map))]
fn to_map(alloc: Global, value: &View<'_>) -> Result<Slot, NoMemory> {
    let key = Box::new(alloc, Ty::Int)?;
    let ty = Ty::Map(key, Box::new(alloc, Ty::Int)?);
    let made = convert_view(alloc, value, &ty);
    drop(ty);
    made
}

#[tactic(auto, using(sz_builtin::proofs::ForCallers::plain_tuple))]
fn to_tuple(alloc: Global, value: &View<'_>) -> Result<Slot, NoMemory> {
    let ty = Ty::Tuple(Fields::new(alloc)?);
    let made = convert_view(alloc, value, &ty);
    drop(ty);
    made
}

fn agree(found: &Result<Slot, NoMemory>, wanted: &Result<Slot, NoMemory>) -> bool {
    match (found, wanted) {
        (Ok(Slot::Defined(found)), Ok(Slot::Defined(wanted))) => equal(found, wanted),
        (Ok(Slot::Undefined), Ok(Slot::Undefined)) => true,
        _ => false,
    }
}

// Whether it makes the same of views, of which one lies elsewhere, or both.
fn makes_of_views(
    alloc: Global,
    call: Call,
    values: &List,
    wanted: &Result<Slot, NoMemory>,
) -> bool {
    let mut all = true;
    for (first, second) in looks() {
        let found = answer_of_views(alloc, call, values, *first, *second);
        all = all && agree(&found, wanted);
        drop(found);
    }
    all
}

// Whether a call makes this of values.
fn makes(alloc: Global, (call, first, second, wanted): Row) -> bool {
    let Ok(values) = list_of(alloc, &[first, second]) else {
        return false;
    };
    let found = answer(alloc, call, &values);
    let wanted = slot_of(alloc, wanted);
    let all = agree(&found, &wanted) && makes_of_views(alloc, call, &values, &wanted);
    drop(found);
    drop(wanted);
    all
}

// Whether the comparisons tell of two values what they should.
fn are_compared(alloc: Global, less: Given, more: Given) -> bool {
    let mut all = true;
    for (op, up, down, same) in comparisons() {
        all = all
            && makes(alloc, (Binary(*op), less, more, Bool(*up)))
            && makes(alloc, (Binary(*op), more, less, Bool(*down)))
            && makes(alloc, (Binary(*op), less, less, Bool(*same)))
            && makes(alloc, (Binary(*op), more, more, Bool(*same)));
    }
    all
}

#[test]
fn calls_make_of_values_what_the_rows_say(rt: HostRuntime) {
    for (number, row) in rows().iter().enumerate() {
        assert!(rt; makes(rt.alloc(), *row), "row {number}");
    }
    for (number, (less, more)) in pairs().iter().enumerate() {
        assert!(rt; are_compared(rt.alloc(), *less, *more), "pair {number}");
    }
}
